//! The server as a station that a node drives.

ghost use Rattle.std.specs.Prelude.{◌≡◌};
ghost use Rattle.server_node.specs.OnAir.Station.{server_course};

use arrayvec::ArrayVec;
use ax25_frames::Frame;
use disk_model::Disk;
use ftl0_server::Server;
use ftl0_server::laws::empties_law;
use px_base::Moment;
use turn_loop::{NodeStop, Station};

/// A server as a station. It must be closed, which parks all uploads.
pub(crate) struct ServerStation {
    server: Server,
}

impl ServerStation {
    /// The station of a server that has nothing to send. Takes no memory.
    pub(crate) fn new(server: Server) -> ServerStation
        ensures { result.server ≡ server }
    {
        ServerStation { server }
    }

    /// Closes the server. Takes no memory.
    pub(crate) fn close(self) {
        let ServerStation { server } = self;
        server.close();
    }
}

/// After a fault of the disk the frames of that event are said, code 3 among them. It takes no memory.
impl<D: Disk> Station<D> for ServerStation {
    ghost me = { λ it. it.server.me };

    ghost course = { server_course D.Disk };

    fn hear(&mut self, disk: &mut D, frame: &Frame<'_>, moment: Moment) -> Result<(), NodeStop> {
        match self.server.hear(disk, frame, moment) {
            Ok(()) => Ok(()),
            Err(fault) => Err(NodeStop::from(fault)),
        }
    }

    fn tick(&mut self, disk: &mut D, moment: Moment) -> Result<(), NodeStop> {
        match self.server.tick(disk, moment) {
            Ok(()) => Ok(()),
            Err(why) => Err(NodeStop::from(why)),
        }
    }

    fn next_out(&mut self, _disk: &mut D, frame: &mut ArrayVec<u8, 400>) -> bool {
        if !self.server.next_out(frame) {
            return false;
        }
        // Whatever comes of its put, what is left to send comes to an end.
        empties_law(&self.server);
        true
    }

    fn is_over(&self) -> bool {
        false
    }

    fn is_lawful() {}
}
