//! What is made of the octets that pass.

ghost use Rattle.std.specs.Prelude.{◌≡◌, IsSome};

use crate::level::Level;
use crate::lines::Lines;
use crate::link::Link;
use arrayvec::ArrayVec;
use ax25_frames::{Frame, Kind, read_frame};
use header_tool::frames::show_frames;
use kiss::{KissFed, KissReader, write_frame};
use px_base::{Call, Moment};
use std::array;
use std::fmt::Write;

/// How many links are watched at a time: those of a server's places.
const LINKS: usize = 8;

/// What makes lines of the octets that pass over an air, both ways. It says no octet, and changes none. Takes no memory
/// besides itself.
#[derive(Drop)]
pub struct Watcher<'a> {
    level: Level,
    me: Call,
    /// The path of the store, until the server is shown to be ready.
    store: Option<&'a str>,
    heard: KissReader,
    said: KissReader,
    links: [Link; LINKS],
}

impl<'a> Watcher<'a> {
    /// A watcher of the air of the server `me`, with its store at this path, before anything passed.
    pub fn of_server(level: Level, me: Call, store: &'a str) -> Watcher<'a> {
        Watcher::fresh(level, me, Some(store))
    }

    /// A watcher of the air of a client, the station `me`, before anything passed.
    pub fn of_client(level: Level, me: Call) -> Watcher<'a> {
        Watcher::fresh(level, me, None)
    }

    /// A watcher of the air of this station, a server's if there is a store, before anything passed.
    fn fresh(level: Level, me: Call, store: Option<&'a str>) -> Watcher<'a> {
        let client = store.is_none();
        Watcher {
            level,
            me,
            store,
            heard: KissReader::new(),
            said: KissReader::new(),
            links: array::from_fn(|_| Link::new(me, client)),
        }
    }

    /// A poll is made at this moment: adds that the server is ready, once, and which stations are gone since they don't
    /// answer.
    pub fn polls(&mut self, moment: Moment, lines: &mut Lines) {
        if let Some(store) = self.store.take() {
            let _ = write!(lines.line, "ready {} store {store}", self.me);
            lines.end(false);
        }
        wait_all(&mut self.links, moment, lines);
    }

    /// Adds the lines of what these octets say, which were heard at this moment.
    pub fn heard(&mut self, octets: &[u8], moment: Moment, lines: &mut Lines) {
        for &octet in octets {
            let fed = self.heard.feed(octet);
            if fed != KissFed::More {
                self.hear_part(fed, moment, lines);
            }
        }
    }

    /// Adds the lines of what these octets say, which were said at this moment.
    pub fn said(&mut self, octets: &[u8], moment: Moment, lines: &mut Lines) {
        for &octet in octets {
            let fed = self.said.feed(octet);
            if fed != KissFed::More {
                self.say_part(fed, moment, lines);
            }
        }
    }

    /// Adds the lines of a part that was heard.
    fn hear_part(&mut self, fed: KissFed, moment: Moment, lines: &mut Lines)
        requires { fed ≡ KissFed.Frame → IsSome self.old.heard.frame }
    {
        if self.level == Level::Frames {
            show_part(fed, &self.heard, lines);
        }
        if fed != KissFed::Frame {
            return;
        }
        let Ok(frame) = read_frame(self.heard.frame()) else {
            return;
        };
        if frame.dest != self.me || frame.via > 0 {
            return;
        }
        if let Some(link) = link_with(&mut self.links, frame.src) {
            link.hear(&frame.kind, moment, lines);
        }
    }

    /// Adds the lines of a part that was said.
    fn say_part(&mut self, fed: KissFed, moment: Moment, lines: &mut Lines)
        requires { fed ≡ KissFed.Frame → IsSome self.old.said.frame }
    {
        if self.level == Level::Frames {
            show_part(fed, &self.said, lines);
        }
        if fed != KissFed::Frame {
            return;
        }
        let Ok(frame) = read_frame(self.said.frame()) else {
            return;
        };
        match link_with(&mut self.links, frame.dest) {
            Some(link) => link.say(&frame, moment, lines),
            None => show_full(&frame, lines),
        }
    }
}

/// Adds at this moment which stations are gone since they don't answer.
fn wait_all(links: &mut [Link], moment: Moment, lines: &mut Lines) {
    for i in 0..links.len() {
        let link = &mut links[i];
        link.wait(moment, lines);
    }
}

/// The link with this station: the one that is known, else one with which nothing is under way, if there is any.
fn link_with(links: &mut [Link], peer: Call) -> Option<&mut Link> {
    if let Some(at) = links.iter().position(|link| link.is_of(peer)) {
        return links.get_mut(at);
    }
    let at = links.iter().position(|link| link.is_free())?;
    let link = links.get_mut(at)?;
    link.take(peer);
    Some(link)
}

/// Adds that a station was refused since all places are taken, if this frame says so.
fn show_full(frame: &Frame<'_>, lines: &mut Lines) {
    if let Kind::Dm = frame.kind {
        let _ = write!(lines.line, "{} refused, all places are taken", frame.dest);
        lines.end(false);
    }
}

/// Adds the line of a part of KISS text, as the command `frames` shows it.
fn show_part(fed: KissFed, reader: &KissReader, lines: &mut Lines)
    requires { fed ≡ KissFed.Frame → IsSome reader.now.frame }
{
    let word = match fed {
        KissFed::Frame => {
            let mut text = ArrayVec::<u8, 810>::new();
            if write_frame(reader.frame(), &mut text).is_ok() {
                let _ = show_frames(&text, lines);
            }
            return;
        }
        KissFed::Dropped => "dropped",
        KissFed::More | KissFed::Passed => "passed",
    };
    let _ = write!(lines.line, "{word}");
    lines.end(false);
}
