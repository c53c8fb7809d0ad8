//! A selection: what a station asked for, as it was read.

ghost use Rattle.std.specs.Prelude.{◌≡◌, ◌<◌, ◌↔◌, length, IfOk, IsOk};
ghost use Rattle.selection.specs.Faults.{FirstFault};
ghost use Rattle.selection.specs.Layout.{Postfix, Tree};
ghost use Rattle.selection.specs.Meaning.{holds as holds_of};
ghost use Rattle.selection.specs.Values.{tree_of};

use crate::SelFault;
use crate::operands::check;
use crate::truths::tokens_hold;
use arrayvec::ArrayVec;
use pfh_items::Header;
use std::marker::Model;

/// A selection that was read. Contracts see it as the octets of its tokens, which are those of one tree.
#[derive(Debug, Drop)]
pub struct Selection {
    /// Its tokens.
    octets: ArrayVec<u8, 2047>,
}

impl Model for Selection {
    ghost use Rattle.std.specs.Prelude.{List, ℕ};
    ghost use Rattle.selection.specs.Layout.{Postfix};
    ghost use Rattle.selection.specs.Values.{tree_of};

    ghost Value = { List ℕ };

    ghost view = { λ a. a.octets.items };

    ghost invariant = { λ a. Postfix (tree_of a.octets.items) a.octets.items };
}

impl Selection {
    /// The selection of these tokens, at most 2,047 octets, or their first fault from left to right. Takes no memory.
    pub fn read(tokens: &[u8]) -> Result<Selection, SelFault>
        requires { length tokens.now < 2048 }
        // It is read exactly where the octets are the tokens of a tree, at most 64.
        ensures accepts { IsOk result ↔ ((tree : Tree) × Postfix tree tokens.now) }
        ensures octets { IfOk result (λ selection. selection ≡ tokens.now) }
        ensures tree { IfOk result (λ selection. Postfix (tree_of selection) tokens.now) }
        // It is refused with a fault exactly where that is the first.
        ensures refuses { (fault : SelFault) → (result ≡ Err fault) ↔ FirstFault fault tokens.now }
    {
        check(tokens)?;
        let mut octets = ArrayVec::new();
        octets.try_extend_from_slice(tokens).unwrap();
        Ok(Selection { octets })
    }

    /// Whether it holds of the header's items. Each comparison looks at each item once. Takes no memory.
    pub fn holds(&self, header: &Header<'_>) -> bool
        ensures holds { result ≡ holds_of (tree_of self.now) header.now.items }
        ensures tree { (tree : Tree) → Postfix tree self.now → result ≡ holds_of tree header.now.items }
    {
        tokens_hold(&self.octets, header)
    }

    /// Writes the tokens that were read in place of what `out` holds. Takes no memory.
    pub fn write(&self, out: &mut ArrayVec<u8, 2047>)
        ensures { out.new.items ≡ self.now }
    {
        out.clear();
        out.try_extend_from_slice(&self.octets).unwrap();
    }
}
