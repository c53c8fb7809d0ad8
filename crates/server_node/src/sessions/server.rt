//! The server of one session: octets in, replies out, and the store's commands on the disk.

ghost use Rattle.std.specs.Prelude.{◌≡◌, ◌≤◌, [], length};
ghost use Rattle.file_store.specs.Files.{NothingOut};
ghost use Rattle.server_node.specs.Sessions.Course.{session_course};
ghost use Rattle.server_node.specs.Sessions.ServerState.{new_server};
ghost use Rattle.server_node.specs.Sessions.SessionRan.{login_text};

use arrayvec::ArrayVec;
use disk_model::Disk;
use file_store::FileStore;
use ftl0_packets::{PacketFed, PacketReader};
use ftl0_session::lists::Lists;
use ftl0_session::{Replies, Session};
use px_base::{Call, Moment};
use std::marker::Model;
use turn_loop::{NodeStop, Party};

/// What serves one session: the reader of its packets, its state, the store, the lists of all callers, and what it
/// has to say first. It must be ended, which parks the session's upload. Contracts see it as a `ServerState`.
pub(crate) struct SessionServer {
    reader: PacketReader,
    session: Session,
    store: FileStore,
    lists: Lists,
    /// LOGIN_RESP, or the replies to the last packet, until they are given. What is due comes behind them.
    replies: Replies,
    /// Whether it takes no further packet, and nothing is due.
    halted: bool,
    /// What was due last. It is kept, so that none has to be made where nothing is due.
    due: ArrayVec<u8, 256>,
}

impl Model for SessionServer {
    ghost use Rattle.server_node.specs.Sessions.ServerState.{ServerState};

    ghost Value = { ServerState };

    ghost use Rattle.server_node.specs.Sessions.Server.{IsServer, server_state};

    ghost view = { server_state };

    ghost invariant = { IsServer };
}

impl SessionServer {
    /// Before the first packet, over this store, of which no upload is out, and without lists. It has LOGIN_RESP at
    /// this moment to say. Takes no memory.
    pub(crate) fn new(caller: Call, first: Moment, store: FileStore, lists: Lists) -> SessionServer
        requires nothing_out { NothingOut store.files }
        requires no_lists { lists ≡ [] }
        ensures { result ≡ new_server caller store (login_text first) }
    {
        let mut replies = Replies::new();
        let session = Session::new(caller, first, &lists, &mut replies);
        SessionServer {
            reader: PacketReader::new(),
            session,
            store,
            lists,
            replies,
            halted: false,
            due: ArrayVec::new(),
        }
    }

    /// Ends the session, which parks its upload. Takes no memory.
    pub(crate) fn end(self) {
        let SessionServer {
            reader: _,
            session,
            mut store,
            lists: _,
            replies: _,
            halted: _,
            due: _,
        } = self;
        session.end(&mut store);
    }
}

/// A packet is finished by what it hears, and each of its answer's texts is given by itself: first the replies to it,
/// then each packet that is due behind them, which reads the disk. After a fault of the disk that is the reply with
/// code 3 alone. It takes no memory.
impl<D: Disk> Party<D> for SessionServer {
    ghost course = { session_course D.Disk };

    fn hear(&mut self, disk: &mut D, piece: &[u8], moment: Moment) -> Result<usize, NodeStop> {
        let (taken, fed) = self.reader.feed(piece);
        if let PacketFed::Whole = fed {
            let answer = self.session.take(
                disk,
                self.reader.packet(),
                moment,
                &mut self.store,
                &mut self.lists,
                &mut self.replies,
            );
            if let Err(fault) = answer {
                self.halted = true;
                return Err(NodeStop::from(fault));
            }
        }
        Ok(taken)
    }

    fn tick(&mut self, _disk: &mut D, _moment: Moment) -> Result<(), NodeStop> {
        Ok(())
    }

    fn next_out(&mut self, disk: &mut D, text: &mut ArrayVec<u8, 2049>) -> bool {
        if !self.replies.is_empty() {
            put_in(&self.replies, text);
            self.replies.clear();
            return true;
        }
        if self.halted {
            return false;
        }
        if !self.session.fill(disk, &mut self.store, &mut self.due) {
            return false;
        }
        put_in(&self.due, text);
        true
    }

    fn is_over(&self) -> bool {
        false
    }

    fn is_lawful() {}
}

/// Replaces a text by these octets. It stays a call of its own, so that looking for a text costs little where there is
/// none.
#[inline(never)]
fn put_in(octets: &[u8], text: &mut ArrayVec<u8, 2049>)
    requires { length octets.now ≤ 2049 }
    ensures { text.new.items ≡ octets.now }
{
    text.clear();
    match text.try_extend_from_slice(octets) {
        Ok(()) => {}
        Err(_full) => unreachable!(),
    }
}
