//! The notes of a command are recovered.

ghost use Rattle.std.specs.Prelude.{IfErr, IfOk};
ghost use Rattle.ftl0_client.specs.Window.{IsGoodK};
ghost use Rattle.uploader.specs.Ready.{RecoversClient, StopsRecovery};

use crate::{ClientTerms, SendStop};
use client_notes::Notes;
use disk_model::Disk;
use ftl0_client::Client;
use std::alloc::Global;

/// A client of these terms, over the notes that are recovered from the disk. Takes memory.
pub(crate) fn recover_client<D: Disk>(
    alloc: Global,
    disk: &mut D,
    terms: &ClientTerms,
) -> Result<Client, SendStop>
    requires { IsGoodK terms.now.k }
    ensures recovers { IfOk result (RecoversClient D.Disk terms.now disk.old disk.new) }
    ensures stops { IfErr result (StopsRecovery D.Disk disk.old disk.new) }
{
    match Notes::recover(alloc, disk) {
        Ok(notes) => Ok(Client::start(notes, terms.me, terms.server, terms.k)),
        Err(fault) => Err(SendStop::from(fault)),
    }
}

/// Lets a client go. It stands here once, since what is let go in many places is proved at each of them.
pub(crate) fn let_go(_client: Client) {}
