//! The events of a schedule.

/// An event of a schedule. Clients and transmissions are numbered from 1 on. Whether there is one of a number is seen
/// when the schedule is played.
#[derive(Debug, Drop)]
pub enum Event {
    /// `ask C upload N`: a client is asked for a new file.
    AskUpload {
        /// The number of the client.
        client: u64,
        /// How many octets the file's body has: at most 40,000.
        octets: u16,
    },
    /// `ask C resume`: a client is asked for its last unfinished upload again.
    AskResume {
        /// The number of the client.
        client: u64,
    },
    /// `ask C list HEX`: a client is asked for the list of the files that a selection matches.
    AskList {
        /// The number of the client.
        client: u64,
        /// The tokens of the selection: 1 to 2,047 octets.
        tokens: Vec<u8>,
    },
    /// `ask C download N`: a client is asked for a file.
    AskDownload {
        /// The number of the client.
        client: u64,
        /// The number of the file on the server: 1 or more.
        number: u32,
    },
    /// `air server C I`: the server hears a transmission of a client in its current attempt.
    ToServer {
        /// The number of the client.
        client: u64,
        /// The number of the transmission.
        transmission: u64,
    },
    /// `air client C I`: a client hears a transmission of the server in its current attempt.
    ToClient {
        /// The number of the client.
        client: u64,
        /// The number of the transmission.
        transmission: u64,
    },
    /// `tick server`: a tick of the server.
    TickServer,
    /// `tick C`: a tick of a client.
    TickClient {
        /// The number of the client.
        client: u64,
    },
    /// `break C`: a client starts again from its notes.
    BreakClient {
        /// The number of the client.
        client: u64,
    },
    /// `cut server N P`: the server's disk stops in the next event that the server takes part in.
    CutServer {
        /// Which write or sync of that event it stops at: 1 or more.
        call: u64,
        /// Which octets the disk is left with.
        choice: u64,
    },
    /// `cut C N P`: a client's disk stops in the next event that the client takes part in.
    CutClient {
        /// The number of the client.
        client: u64,
        /// Which write or sync of that event it stops at: 1 or more.
        call: u64,
        /// Which octets the disk is left with.
        choice: u64,
    },
}
