//! A client as a station.

ghost use Rattle.std.specs.Prelude.{◌≡◌, false};
ghost use Rattle.ftl0_client.specs.ClientState.{client_pending};
ghost use Rattle.uploader.specs.Turns.Course.{IsQuiet, client_course};

use arrayvec::ArrayVec;
use ax25_frames::Frame;
use disk_model::Disk;
use ftl0_client::Client;
use ftl0_client::laws::{empties_law, goes_law};
use px_base::Moment;
use turn_loop::{NodeStop, Station};

/// A client as a station: it hears frames for its call, and keeps no moments. Once a frame halted it, because the disk
/// failed or there was no memory, it sends nothing.
pub(crate) struct ClientStation {
    /// The client.
    pub(crate) client: Client,
    /// Whether a frame halted it.
    pub(crate) halted: bool,
}

impl<D: Disk> Station<D> for ClientStation {
    ghost me = { λ station. station.client.me };

    ghost course = { client_course D.Disk };

    fn hear(&mut self, disk: &mut D, frame: &Frame<'_>, _moment: Moment) -> Result<(), NodeStop> {
        // What it came to before this frame.
        goes_law();
        match self.client.hear(disk, frame) {
            Ok(()) => Ok(()),
            Err(why) => {
                self.halted = true;
                Err(NodeStop::from(why))
            }
        }
    }

    fn tick(&mut self, _disk: &mut D, _moment: Moment) -> Result<(), NodeStop> {
        self.client.tick();
        Ok(())
    }

    fn next_out(&mut self, _disk: &mut D, frame: &mut ArrayVec<u8, 400>) -> bool {
        if self.halted {
            return false;
        }
        let given = self.client.next_out(frame);
        // Whatever comes of saying it, what is left to send comes to an end.
        empties_law(&self.client);
        given
    }

    fn is_over(&self) -> bool {
        self.client.closed()
    }

    fn is_lawful() {}
}

/// Nothing is pending, so whichever client it stands for has nothing to send. The client stays as it is.
pub(crate) fn sends_nothing(client: &mut Client)
    requires { client_pending client.old ≡ false }
    ensures quiet { IsQuiet client.old }
    ensures same { client.new ≡ client.old }
{
    let mut frame = ArrayVec::new();
    let _given = client.next_out(&mut frame);
}
