//! How a run of the program ended.

ghost use Rattle.std.specs.Prelude.{◌≡◌, ◌*◌, ◌+◌, ◌≤◌, ◌++◌, length};
ghost use Rattle.arrayvec.specs.ArrayVec.{array_vec_len};
ghost use Rattle.hex.specs.Hex.{encode_lower};
ghost use Rattle.pacsat_cli.specs.Status.{bad_line, broken_line, changed_line, line_of, number_of, numbered_line};
ghost use Rattle.pacsat_cli.specs.Status.{place_text, sum_text};
ghost use Rattle.pacsat_cli.specs.declared.status.BadStore.TheVariants.{NotAStore};
ghost use Rattle.pacsat_cli.specs.Stops.{status_of_load as load_status};

use air_rehearsal::Breach;
use arrayvec::ArrayVec;
use itoa::Buffer;
use px_base::ShelfRefusal;
use uploader::FileSum;

/// Room for a status's line in octets: `file changed `, twice ten digits, a blank and 64 digits, the blank between the two,
/// and the line feed.
const LINE_ROOM: usize = 165;

/// A status's line, with its line feed.
pub(crate) type Line = ArrayVec<u8, LINE_ROOM>;

/// Why the content of a disk is no store of files, or no client's notes.
#[derive(Clone, Copy)]
pub enum BadStore {
    /// It has more than 16 octets, and they don't begin as those of one.
    NotAStore {
        /// Its first eight octets.
        found: [u8; 8],
    },
    /// It begins as one, and is damaged.
    Damaged {
        /// 8 for the block number, else the place of the gate before a record that is none.
        at: u64,
    },
}

/// By what a file, or what a client asked of a server, was refused.
#[derive(Clone, Copy)]
pub enum RefusedBy {
    /// By the file's first fault, whose code the last line of what was shown says.
    Shown,
    /// By the server, with a code (FTL0 1990, error codes).
    Server {
        /// The code.
        code: u8,
    },
    /// By the first fault of the file that is sent, that came, or whose body is asked for (PFH 1990).
    Fault {
        /// The fault's code: 6, 7, 14, 15 or 16.
        code: u8,
    },
}

/// How a run of the program ended.
#[derive(Clone, Copy)]
pub enum Status {
    /// The command did what it says; a node that serves read the end of the air.
    Done,
    /// A file, or what was asked of a server, was refused.
    Refused(RefusedBy),
    /// The words aren't in the command set.
    Usage,
    /// Hearing failed: the air's count of read faults rose.
    AirRead,
    /// Saying failed: the air's count of write faults rose.
    AirWrite,
    /// The disk failed, and a count of its faults rose: once anything was heard, that of failed writes and syncs.
    Disk,
    /// The shelf has no content of the name.
    NoSuch,
    /// The last task of this server, caller and name is unfinished, and was begun with another file.
    FileChanged {
        /// The length and the digest of the task's file.
        kept: FileSum,
        /// Those of the file on the shelf.
        given: FileSum,
    },
    /// The disk's content is no store of files, or no client's notes.
    BadStore(BadStore),
    /// There was no memory.
    OutOfMemory,
    /// As many polls were made as may be, and none was the end of the air; of a client's, before anything became of what it
    /// asked.
    Spent,
    /// Showing failed: the output's count of faults rose.
    Out,
    /// The shelf failed: its count of faults rose.
    Shelf,
    /// The link to the server went down before anything became of what was asked, or the end of the air was read before
    /// (AX.25 2.0, 2.4).
    LinkDown,
    /// The content of the name is no schedule, or an event of it may not come where it stands.
    BadSchedule {
        /// The number of the first line that can't be a schedule's, or of the event's, from 1 on.
        line: u64,
    },
    /// The server said a packet that has no place in what was asked, or a malformed one; or the reply to it didn't fit the
    /// link.
    Strange {
        /// The packet's type.
        kind: u8,
    },
    /// A new task is wanted, and 65,536 stand in the notes.
    NotesFull,
    /// The content of the name is longer than may be.
    TooLong,
    /// A rehearsal found what never should be, as a store that isn't recovered.
    Broken {
        /// The number of the event's line, from 1 on; 0 while the stations start, the last line at the end. Of a
        /// schedule that is drawn it is the event's number.
        line: u64,
        /// What was found.
        what: Breach,
    },
}

impl Status {
    /// The number that the process ends with.
    pub fn number(&self) -> u8
        ensures { result ≡ number_of self.now }
    {
        match self {
            Status::Done => 0,
            Status::Refused(_) => 1,
            Status::Usage => 2,
            Status::AirRead => 3,
            Status::AirWrite => 4,
            Status::Disk => 5,
            Status::NoSuch => 6,
            Status::FileChanged { .. } => 7,
            Status::BadStore(_) => 8,
            Status::OutOfMemory => 9,
            Status::Spent => 10,
            Status::Out => 11,
            Status::Shelf => 12,
            Status::LinkDown => 13,
            Status::BadSchedule { .. } => 14,
            Status::Strange { .. } => 15,
            Status::NotesFull => 16,
            Status::TooLong => 17,
            Status::Broken { .. } => 22,
        }
    }

    /// The line that says so, with its line feed; none where all is done, nor where the last line of what was shown says
    /// why a file was refused.
    pub(crate) fn line(&self) -> Line
        ensures { result.items ≡ line_of self.now }
    {
        match self {
            Status::Done | Status::Refused(RefusedBy::Shown) => Line::new(),
            Status::Refused(RefusedBy::Server { code }) => numbered("refused ", u64::from(*code)),
            Status::Refused(RefusedBy::Fault { code }) => numbered("fault ", u64::from(*code)),
            Status::Usage => text("usage\n"),
            Status::AirRead => text("air read\n"),
            Status::AirWrite => text("air write\n"),
            Status::Disk => text("disk\n"),
            Status::NoSuch => text("no such file\n"),
            Status::FileChanged { kept, given } => line_of_change(kept, given),
            Status::BadStore(BadStore::NotAStore { found }) => line_of_content(found),
            Status::BadStore(BadStore::Damaged { at }) => numbered("damaged ", *at),
            Status::OutOfMemory => text("out of memory\n"),
            Status::Spent => text("spent\n"),
            Status::Out => text("out\n"),
            Status::Shelf => text("shelf\n"),
            Status::LinkDown => text("link down\n"),
            Status::BadSchedule { line } => numbered("bad schedule ", *line),
            Status::Strange { kind } => numbered("strange packet ", u64::from(*kind)),
            Status::NotesFull => text("notes full\n"),
            Status::TooLong => text("too long\n"),
            Status::Broken { line, what } => line_of_breach(*line, what),
        }
    }
}

/// A line of this text.
fn text(text: &str) -> Line
    requires { length text.now ≤ 165 }
    ensures { result.items ≡ text.now }
{
    let mut line = Line::new();
    push(&mut line, text.as_bytes());
    line
}

/// The line of these words and a number.
pub(crate) fn numbered(words: &str, number: u64) -> Line
    requires { length words.now ≤ 20 }
    ensures { result.items ≡ numbered_line words.now number }
{
    let mut line = text(words);
    push(&mut line, Buffer::new().format(number).as_bytes());
    push(&mut line, b"\n");
    line
}

/// The line of a file that isn't the one of its task: the length and the digest of that one, and then its own.
fn line_of_change(kept: &FileSum, given: &FileSum) -> Line
    ensures { result.items ≡ changed_line kept.now given.now }
{
    let mut line = text("file changed ");
    push_sum(&mut line, kept);
    push(&mut line, b" ");
    push_sum(&mut line, given);
    push(&mut line, b"\n");
    line
}

/// The line of content that is no store: these first eight octets of it in hexadecimal digits, in lower case.
fn line_of_content(found: &[u8; 8]) -> Line
    ensures { result.items ≡ bad_line (NotAStore found.now) }
{
    let mut line = text("not a store ");
    push_hex(&mut line, found);
    push(&mut line, b"\n");
    line
}

/// The line of a rehearsal that broke: the number of its line, what was found, and the place of damage.
fn line_of_breach(number: u64, what: &Breach) -> Line
    ensures { result.items ≡ broken_line number what.now }
{
    let mut line = text("broken ");
    push(&mut line, Buffer::new().format(number).as_bytes());
    push(&mut line, b" ");
    push(&mut line, what.words().as_bytes());
    push_place(&mut line, what.place());
    push(&mut line, b"\n");
    line
}

/// Adds a blank and the place of damage in decimal digits, if there is one.
fn push_place(line: &mut Line, place: Option<u64>)
    requires { array_vec_len line.old + 21 ≤ LINE_ROOM }
    ensures text { line.new.items ≡ line.old.items ++ place_text place }
    ensures len { array_vec_len line.new ≤ array_vec_len line.old + 21 }
{
    let Some(at) = place else {
        return;
    };
    push(line, b" ");
    push(line, Buffer::new().format(at).as_bytes());
}

/// Adds a file's length in decimal digits, a blank, and its digest in hexadecimal digits, in lower case.
fn push_sum(line: &mut Line, sum: &FileSum)
    requires { array_vec_len line.old + 75 ≤ LINE_ROOM }
    ensures text { line.new.items ≡ line.old.items ++ sum_text sum.now }
    ensures len { array_vec_len line.new ≤ array_vec_len line.old + 75 }
{
    push(line, Buffer::new().format(sum.length).as_bytes());
    push(line, b" ");
    push_hex(line, &sum.digest);
}

/// Adds at most 32 octets in hexadecimal digits, in lower case.
fn push_hex(line: &mut Line, octets: &[u8])
    requires few { length octets.now ≤ 32 }
    requires room { array_vec_len line.old + 2 * length octets.now ≤ LINE_ROOM }
    ensures text { line.new.items ≡ line.old.items ++ encode_lower octets.now }
    ensures len { array_vec_len line.new ≡ array_vec_len line.old + 2 * length octets.now }
{
    let mut digits = [0; 64];
    let digits = &mut digits[..2 * octets.len()];
    hex::encode_to_slice(octets, digits).unwrap();
    push(line, digits);
}

/// Adds octets to a line.
fn push(line: &mut Line, octets: &[u8])
    requires { array_vec_len line.old + length octets.now ≤ LINE_ROOM }
    ensures text { line.new.items ≡ line.old.items ++ octets.now }
    ensures len { array_vec_len line.new ≡ array_vec_len line.old + length octets.now }
{
    line.try_extend_from_slice(octets).unwrap();
}

/// The status of a file that the shelf didn't load.
pub(crate) fn status_of_load(refusal: ShelfRefusal) -> Status
    ensures { result ≡ load_status refusal }
{
    match refusal {
        ShelfRefusal::NoSuch => Status::NoSuch,
        ShelfRefusal::TooLong => Status::TooLong,
        ShelfRefusal::Fault => Status::Shelf,
        ShelfRefusal::OutOfMemory => Status::OutOfMemory,
    }
}
