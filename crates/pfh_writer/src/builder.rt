//! The builder of a file's header.

ghost use Rattle.std.specs.Prelude.{◌≡◌, ℕ, ◌+◌, ◌<◌, ◌≤◌, ◌^◌, ◌++◌, ◌∷◌, [], length, IfOk, OnOk, OnErr, IsNone, IsOkUnless, IsTrue, MatchOption};
ghost use Rattle.pfh_items.specs.Faults.{IsFaultless, header_sum as sum_of_header, with_content};
ghost use Rattle.pfh_items.specs.Layout.{AreItems, header_start, items_text};
ghost use Rattle.pfh_items.specs.Table.{fixed_len as fixed_len_of};
ghost use Rattle.pfh_writer.specs.Built.{built_file_len, built_items, built_len, fits_len, item as item_of, items_saying, mandatory_saying, passing_len, put_refusal, stands};
ghost use Rattle.px_base.specs.Numbers.{le16_octets};

use crate::refusal::{FinishRefusal, PutRefusal};
use crate::text::{END_ITEM, item_len, push_item, push_item16, push_item32, push_octets};
use arrayvec::ArrayVec;
use pfh_items::{
    BODY_CHECKSUM, BODY_OFFSET, CREATE_TIME, FILE_EXT, FILE_NAME, FILE_NUMBER, FILE_SIZE,
    FILE_TYPE, HEADER_CHECKSUM, HEADER_START, Items, LAST_MODIFIED_TIME, SEU_FLAG, fixed_len,
    is_mandatory, is_single, sum16,
};
use px_base::{FileBytes, OutOfMemory};
use std::alloc::Global;
use std::marker::Model;

/// The length of AA 55 and the mandatory items in octets.
const FIRST_LEN: usize = 70;

/// The same without file_name and file_ext.
const FIXED_LEN: usize = 53;

/// The most octets that a header may have.
const MAX_HEADER: usize = 65_535;

/// The most octets that a file may have.
const MAX_FILE: usize = 4_194_304;

/// How many octets of items there is room for at first.
const ROOM: usize = 256;

/// The builder of a file: its header's items, of which the mandatory ones are made by the builder. Contracts see it as
/// what was given for those, and the other items in the order in which they were put.
#[derive(Debug, Drop)]
pub struct HeaderBuilder {
    alloc: Global,
    name: [u8; 8],
    ext: [u8; 3],
    created: u32,
    modified: u32,
    seu: u8,
    file_type: u8,
    /// The other items' texts.
    others: FileBytes,
}

impl Model for HeaderBuilder {
    ghost use Rattle.pfh_items.specs.Walk.{items_from};
    ghost use Rattle.pfh_writer.specs.Built.{AreOthers, BuilderValue};

    ghost Value = { BuilderValue };

    ghost view = { λ a. record {
      name = a.name;
      ext = a.ext;
      created = a.created;
      modified = a.modified;
      seu = a.seu;
      file_type = a.file_type;
      others = (items_from 0 a.others).items;
    } };

    ghost invariant = { λ a. AreOthers a.others (items_from 0 a.others).items };
}

impl HeaderBuilder {
    /// A builder with no other items. `name` and `ext` are file_name and file_ext, `created` and `modified` create_time
    /// and last_modified_time in seconds since 1 January 1970, `seu` seu_flag, `file_type` file_type (PFH 1990, mandatory
    /// header). Takes memory.
    pub fn new(
        alloc: Global,
        name: [u8; 8],
        ext: [u8; 3],
        created: u32,
        modified: u32,
        seu: u8,
        file_type: u8,
    ) -> Result<HeaderBuilder, OutOfMemory>
        ensures { IfOk result (λ builder. builder ≡ record {
          name = name;
          ext = ext;
          created = created;
          modified = modified;
          seu = seu;
          file_type = file_type;
          others = [];
        }) }
    {
        let others = with_room(alloc, ROOM)?;
        Ok(HeaderBuilder {
            alloc,
            name,
            ext,
            created,
            modified,
            seu,
            file_type,
            others,
        })
    }

    /// Puts an item after those that were put before. Refused, by the first of these that holds: [`PutRefusal::Mandatory`]
    /// for ids 1 to 11; [`PutRefusal::BadLength`] where the data hasn't the length that the id's data has, is longer than
    /// 255 octets, or is none for id 0; [`PutRefusal::Twice`] for a second source, ax25_uploader, upload_time,
    /// download_count, expire_time or priority. A refusal leaves the builder as it was. Takes memory.
    pub fn put(&mut self, id: u16, bytes: &[u8]) -> Result<(), PutRefusal>
        ensures ok { OnOk result (self.new ≡ record self.old { others = self.old.others ++ item_of id bytes.now ∷ [] }) }
        ensures err { OnErr result (self.new ≡ self.old) }
        ensures refused { MatchOption (put_refusal self.old.others id bytes.now)
            (IsOkUnless result PutRefusal.OutOfMemory) (λ refusal. result ≡ Err refusal) }
    {
        if let Some(refusal) = self.refusal(id, bytes) {
            return Err(refusal);
        }
        let mut text: ArrayVec<u8, 258> = ArrayVec::new();
        push_item(&mut text, id, bytes);
        self.others.append(text.as_slice())?;
        Ok(())
    }

    /// Why this item isn't taken, if it isn't.
    fn refusal(&self, id: u16, bytes: &[u8]) -> Option<PutRefusal>
        ensures refusal { result ≡ put_refusal self.now.others id bytes.now }
        ensures short { IsNone result → length bytes.now ≤ 255 }
    {
        if is_mandatory(id) {
            Some(PutRefusal::Mandatory { id })
        } else if !may_have_len(id, bytes.len()) {
            Some(PutRefusal::BadLength { id })
        } else if is_single(id) && self.has(id) {
            Some(PutRefusal::Twice { id })
        } else {
            None
        }
    }

    /// Whether an item of this id was put.
    fn has(&self, id: u16) -> bool
        ensures { result ≡ stands id self.now.others }
    {
        Items::over(self.others.as_slice()).any(|item| item.id == id)
    }

    /// The file with this body, whose header has the mandatory items in ascending order with file_number 0, then the items
    /// that were put, in their order; file_size, body_offset and both checksums are the file's. Refused exactly where the
    /// header would be longer than 65,535 octets or else the file longer than 4,194,304: [`FinishRefusal::TooLong`]. A
    /// refusal gives the builder up. Takes memory.
    pub fn finish(self, body: &[u8]) -> Result<FileBytes, FinishRefusal>
        ensures file { IfOk result (IsFaultless (built_items self body.now) body.now) }
        ensures refused { MatchOption (passing_len self body.now)
            (IsOkUnless result FinishRefusal.OutOfMemory) (λ len. result ≡ Err (FinishRefusal.TooLong len)) }
    {
        if let Some(len) = self.long_len(body) {
            return Err(FinishRefusal::TooLong { len });
        }
        Ok(self.file(body)?)
    }

    /// The length of the header.
    fn header_len(&self) -> usize
        ensures { result ≡ built_len self.now }
    {
        self.first_len() + self.others.as_slice().len() + END_ITEM.len()
    }

    /// The length of AA 55 and the mandatory items.
    fn first_len(&self) -> usize
        ensures len { result ≡ 70 }
        ensures name { length self.now.name ≡ 8 }
        ensures ext { length self.now.ext ≡ 3 }
    {
        FIXED_LEN + item_len(&self.name) + item_len(&self.ext)
    }

    /// The length of the header or the file with this body, if it is more than that may have.
    fn long_len(&self, body: &[u8]) -> Option<usize>
        ensures len { result ≡ passing_len self.now body.now }
        ensures header { IsNone result → built_len self.now ≤ 65535 }
        ensures file { IsNone result → built_file_len self.now body.now ≤ 4194304 }
    {
        let header_len = self.header_len();
        if header_len > MAX_HEADER {
            return Some(header_len);
        }
        let file_len = header_len + body.len();
        if file_len > MAX_FILE {
            return Some(file_len);
        }
        None
    }

    /// The file with this body.
    fn file(&self, body: &[u8]) -> Result<FileBytes, OutOfMemory>
        requires header { built_len self.now ≤ 65535 }
        requires file { built_file_len self.now body.now ≤ 4194304 }
        ensures { IfOk result (IsFaultless (built_items self.now body.now) body.now) }
    {
        let header_len = self.header_len();
        let file_len = header_len + body.len();
        let says = Says {
            file_size: file_len as u32,
            body_sum: sum16(body),
            body_offset: header_len as u16,
        };
        let first = self.first(says, self.header_sum(says));
        let mut file = with_room(self.alloc, file_len)?;
        file.append(first.as_slice())?;
        file.append(self.others.as_slice())?;
        file.append(&END_ITEM)?;
        file.append(body)?;
        Ok(file)
    }

    /// The sum of the header that says this.
    fn header_sum(&self, says: Says) -> u16
        ensures { result ≡ sum_of_header (items_saying self.now says.file_size says.body_sum says.body_offset) }
    {
        let first = self.first(says, 0);
        sum16(first.as_slice()).wrapping_add(sum16(self.others.as_slice()))
    }

    /// AA 55 and the mandatory items.
    fn first(&self, says: Says, header_sum: u16) -> ArrayVec<u8, FIRST_LEN>
        ensures text { result.items ≡ header_start ++ items_text (with_content 0x0A (le16_octets header_sum)
            (mandatory_saying self.now says.file_size says.body_sum says.body_offset)) }
        ensures items { AreItems (with_content 0x0A (le16_octets header_sum)
            (mandatory_saying self.now says.file_size says.body_sum says.body_offset)) }
        ensures name { length self.now.name ≡ 8 }
        ensures ext { length self.now.ext ≡ 3 }
    {
        let mut text = ArrayVec::new();
        push_octets(&mut text, &HEADER_START);
        push_item32(&mut text, FILE_NUMBER, 0);
        push_item(&mut text, FILE_NAME, &self.name);
        push_item(&mut text, FILE_EXT, &self.ext);
        push_item32(&mut text, FILE_SIZE, says.file_size);
        push_item32(&mut text, CREATE_TIME, self.created);
        push_item32(&mut text, LAST_MODIFIED_TIME, self.modified);
        push_item(&mut text, SEU_FLAG, &[self.seu]);
        push_item(&mut text, FILE_TYPE, &[self.file_type]);
        push_item16(&mut text, BODY_CHECKSUM, says.body_sum);
        push_item16(&mut text, HEADER_CHECKSUM, header_sum);
        push_item16(&mut text, BODY_OFFSET, says.body_offset);
        text
    }
}

/// What a header says of its file.
#[derive(Clone, Copy, Debug)]
struct Says {
    /// The length of the file in octets.
    file_size: u32,
    /// The sum of the body's octets modulo 65,536.
    body_sum: u16,
    /// The length of the header in octets.
    body_offset: u16,
}

/// Whether an item of this id may have data of this length.
fn may_have_len(id: u16, len: usize) -> bool
    ensures fits { result ≡ fits_len (fixed_len_of id) id len }
    ensures short { IsTrue result → len ≤ 255 }
{
    match fixed_len(id) {
        Some(fixed) => len == usize::from(fixed),
        None => len <= 255 && !(id == 0 && len == 0),
    }
}

/// No octets, with room for this many. Takes memory.
fn with_room(alloc: Global, octets: usize) -> Result<FileBytes, OutOfMemory>
    ensures { IfOk result (λ bytes. bytes ≡ []) }
{
    Ok(FileBytes::from_vec(Vec::with_capacity(alloc, octets)?))
}
