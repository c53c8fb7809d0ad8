//! A station on the air.

ghost use Rattle.std.specs.Prelude.{◌≡◌, []};
ghost use Rattle.turn_loop.specs.OnAir.{on_air};
ghost use Rattle.turn_loop.specs.Reading.{HasHeard};

use crate::laws::some_frames_law;
use crate::{NodeStop, Party, Station, StationReader};
use arrayvec::ArrayVec;
use disk_model::Disk;
use kiss::write_frame;
use px_base::{Call, Moment};

/// A station on the air: it hears the frames for it in the KISS text that is heard, passes over every other part, and
/// the frames that it gives are said as KISS text.
pub(crate) struct OnAir<S> {
    /// What reads of the KISS text, for the station's call.
    pub(crate) reader: StationReader,
    /// The station.
    pub(crate) station: S,
}

impl<S> OnAir<S> {
    /// The station with this call, which has heard nothing yet. Takes no memory.
    pub(crate) fn new(me: Call, station: S) -> OnAir<S>
        ensures me { result.reader.me ≡ me }
        ensures heard { HasHeard result.reader [] }
        ensures station { result.station ≡ station }
    {
        OnAir {
            reader: StationReader::new(me),
            station,
        }
    }
}

impl<D: Disk, S: Station<D>> Party<D> for OnAir<S> {
    ghost course = { on_air S.me S.course };

    fn hear(&mut self, disk: &mut D, piece: &[u8], moment: Moment) -> Result<usize, NodeStop> {
        S::is_lawful();
        let mut count = 0;
        while count < piece.len() {
            count += self.reader.pass(&piece[count..]);
            if count == piece.len() {
                return Ok(count);
            }
            let octet = piece[count];
            count += 1;
            if !self.reader.feed(octet) {
                continue;
            }
            match self.reader.frame() {
                Some(frame) => {
                    return match self.station.hear(disk, &frame, moment) {
                        Ok(()) => Ok(count),
                        Err(stop) => Err(stop),
                    };
                }
                None => {}
            }
        }
        Ok(piece.len())
    }

    fn tick(&mut self, disk: &mut D, moment: Moment) -> Result<(), NodeStop> {
        self.station.tick(disk, moment)
    }

    fn next_out(&mut self, disk: &mut D, text: &mut ArrayVec<u8, 2049>) -> bool {
        let mut frame = ArrayVec::new();
        if !self.station.next_out(disk, &mut frame) {
            return false;
        }
        match write_frame(&frame, text) {
            Ok(()) => true,
            Err(_long) => unreachable!(),
        }
    }

    fn is_over(&self) -> bool {
        self.station.is_over()
    }

    fn is_lawful() {
        S::is_lawful();
        some_frames_law();
    }
}
