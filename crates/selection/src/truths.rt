//! Whether tokens hold of a header, from left to right: which operands hold after each.

ghost use Rattle.std.specs.Prelude.{◌≡◌, ◌<◌, ◌≤◌, List, IsOk};
ghost use Rattle.arrayvec.specs.ArrayVec.{array_vec_len};
ghost use Rattle.pfh_items.specs.Layout.{ItemValue};
ghost use Rattle.selection.specs.Layout.{operands_of};
ghost use Rattle.selection.specs.Meaning.{holds};
ghost use Rattle.selection.specs.Reading.{operated, tree_in, trees_after};
ghost use Rattle.selection.specs.Values.{Takes, operands_needed, token_value, tree_of};

use crate::operands::MOST_TOKENS;
use crate::token::{Operator, Token, first_token};
use arrayvec::ArrayVec;
use pfh_items::Header;

/// Which operands hold, from the first to the last. There are never more of them than tokens.
type Truths = ArrayVec<bool, MOST_TOKENS>;

/// Whether the tree of these tokens holds of the header's items.
pub fn tokens_hold(tokens: &[u8], header: &Header<'_>) -> bool
    requires { IsOk (tree_in tokens.now) }
    ensures { result ≡ holds (tree_of tokens.now) header.now.items }
{
    let mut truths = Truths::new();
    let mut at = 0;
    while at < tokens.len() {
        let token = first_token(&tokens[at..]).unwrap();
        take_token(&mut truths, &token, header);
        at += token.len();
    }
    truths.pop().unwrap()
}

/// Takes a token, which has its operands.
fn take_token(truths: &mut Truths, token: &Token<'_>, header: &Header<'_>)
    requires room { array_vec_len truths.old < 64 }
    requires operands { operands_needed (token_value token.now) ≤ array_vec_len truths.old }
    ensures { Takes header.now.items (trees_after (token_value token.now)) truths.old.items truths.new.items }
{
    match token {
        Token::Compare(comparison) => truths.push(comparison.holds(header)),
        Token::Operate(operator) => operate(truths, *operator),
    }
}

/// Puts what an operator gives in the place of its operands.
fn operate(truths: &mut Truths, operator: Operator)
    requires room { array_vec_len truths.old < 64 }
    requires operands { operands_of operator ≤ array_vec_len truths.old }
    ensures { (items : List ItemValue) → Takes items (operated operator) truths.old.items truths.new.items }
{
    let last = truths.pop().unwrap();
    let truth = match operator {
        Operator::Not => !last,
        Operator::And => truths.pop().unwrap() && last,
        Operator::Or => truths.pop().unwrap() || last,
    };
    truths.push(truth);
}
