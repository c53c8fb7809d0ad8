//! Laws of what an air over a connection asks of it, each the contract of a function that does nothing.

ghost use Rattle.real_outside.specs.Tcp.RunLaws.{IsOneConnection};
ghost use Rattle.real_outside.specs.Tcp.SendingLaws.{IsCutSend, IsWholeSend};

/// Octets that are sent, in however short writes, were taken once each, in order.
pub fn whole_send_law()
    ensures { IsWholeSend }
{}

/// Of octets that aren't all sent a prefix was taken.
pub fn cut_send_law()
    ensures { IsCutSend }
{}

/// However often an air is called, it makes one connection at most.
pub fn one_connection_law()
    ensures { IsOneConnection }
{}
