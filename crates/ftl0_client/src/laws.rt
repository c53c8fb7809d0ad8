//! Laws of a client.

ghost use Rattle.std.specs.Prelude.{List};
ghost use Rattle.ax25_frames.specs.FrameText.{FrameValue};
ghost use Rattle.ftl0_client.specs.Client.{Client as ClientValue};
ghost use Rattle.ftl0_client.specs.ClientState.{IsClient};
ghost use Rattle.ftl0_client.specs.ClientStep.{Empties};
ghost use Rattle.ftl0_client.specs.Going.{GoesLaw, SettledLaw, StaysLaw};
ghost use Rattle.ftl0_client.specs.Laws.{AckedLaw, FetchedLaw, OneStepLaw, OutcomeLaw, SomeStepLaw, StrangerLaw};

use crate::Client;

/// A client has nothing more to send after some list of frames, whatever was pushed and heard. Takes no memory.
pub fn empties_law(client: &Client)
    ensures { (value : ClientValue) → IsClient client.now value →
        (frames : List FrameValue) × (last : ClientValue) × Empties value frames last }
{
    client.fits_law();
}

/// An event has at most one step: these commands, these frames, and the client after it.
pub fn one_step_law()
    ensures { OneStepLaw }
{}

/// Each event has a step, for a client that has nothing to send and whose link's end is such as frames and ticks bring
/// about; and it is such a client after it.
pub fn some_step_law()
    ensures { SomeStepLaw }
{}

/// What became of what was asked stays, whatever frames and ticks come.
pub fn outcome_law()
    ensures { OutcomeLaw }
{
    crate::attempt::laws::outcome_law();
}

/// An upload reaches the outcome that its file was acknowledged only by a frame of which that is noted, in every image
/// from the end of the event on.
pub fn acked_law()
    ensures { AckedLaw }
{
    crate::attempt::laws::acked_law();
}

/// A download reaches the outcome that its file was fetched only by a frame after which the file's octets are noted,
/// and have no fault.
pub fn fetched_law()
    ensures { FetchedLaw }
{
    crate::attempt::laws::fetched_law();
}

/// What frames and ticks make of a client that was asked for a job: what is true of it, and what its outcome promises.
pub fn goes_law()
    ensures { GoesLaw }
{
    crate::attempt::laws::stands_law();
}

/// Once something became of what was asked, whichever it is, nothing more is noted, and it stays.
pub fn settled_law()
    ensures { SettledLaw }
{
    crate::attempt::laws::stands_law();
    crate::attempt::laws::quiet_law();
    crate::attempt::laws::outcome_law();
}

/// Once something became of what was asked it stays over all frames and ticks, whatever the notes are.
pub fn stays_law()
    ensures { StaysLaw }
{
    crate::attempt::laws::outcome_law();
}

/// What a client says to a station with which it has no link is what an end of a link that is down says (AX.25 2.0,
/// 2.4.3.4).
pub fn stranger_law()
    ensures { StrangerLaw }
{}
