//! The check of a selection's tokens, from left to right: how many operands stand after each.

ghost use Rattle.std.specs.Prelude.{◌≡◌, ◌<◌, ◌≤◌, ◌+◌, [], length, IfOk, IfSome};
ghost use Rattle.selection.specs.Layout.{most_tokens};
ghost use Rattle.selection.specs.Reading.{fault_at, operated, token_in, token_len, tree_in, trees_after, trees_from};
ghost use Rattle.selection.specs.Values.{ChecksAs, CountsAs, Leaves, Steps, token_value};

use crate::SelFault;
use crate::token::{Operator, Token, TokenFault, first_token};

/// How many tokens a selection has at most.
pub const MOST_TOKENS: usize = 64;

/// Ok exactly where these are the tokens of a tree, and else their first fault.
pub fn check(tokens: &[u8]) -> Result<(), SelFault>
    ensures { ChecksAs result (tree_in tokens.now) }
{
    match operands_left(tokens)? {
        0 => Err(SelFault::Empty),
        1 => Ok(()),
        count => Err(SelFault::Left { count }),
    }
}

/// How many operands stand at the end of the tokens, or their first fault.
fn operands_left(tokens: &[u8]) -> Result<usize, SelFault>
    ensures { CountsAs result (trees_from most_tokens 0 [] tokens.now) }
{
    let mut most = MOST_TOKENS;
    let mut operands = 0;
    let mut at = 0;
    while at < tokens.len() {
        if most == 0 {
            return Err(SelFault::Many { at });
        }
        let (len, after) = step(at, operands, &tokens[at..])?;
        at += len;
        operands = after;
        most -= 1;
    }
    Ok(operands)
}

/// The length of the token at this place, and how many operands stand after it, of which there were so many.
fn step(at: usize, operands: usize, rest: &[u8]) -> Result<(usize, usize), SelFault>
    requires some { 0 < length rest.now }
    requires operands { operands ≤ 64 }
    ensures step { Steps result at operands (token_in rest.now) }
    ensures more { IfOk result (λ step. step.1 ≤ operands + 1) }
    ensures some { IfOk result (λ step. 0 < step.0) }
    ensures within { IfOk result (λ step. step.0 ≤ length rest.now) }
{
    match first_token(rest) {
        Ok(token) => step_over(&token, at, operands),
        Err(fault) => Err(fault.at(at)),
    }
}

/// The same where this is the token.
fn step_over(token: &Token<'_>, at: usize, operands: usize) -> Result<(usize, usize), SelFault>
    requires { operands ≤ 64 }
    ensures step { Steps result at operands (Ok (token_value token.now)) }
    ensures more { IfOk result (λ step. step.1 ≤ operands + 1) }
    ensures len { IfOk result (λ step. step.0 ≡ token_len (token_value token.now)) }
{
    match token.operands_after(operands) {
        Some(after) => Ok((token.len(), after)),
        None => Err(SelFault::Few { at }),
    }
}

impl TokenFault {
    /// What it is called in a selection whose token at this place it is.
    fn at(self, at: usize) -> SelFault
        ensures { result ≡ fault_at at self }
    {
        match self {
            TokenFault::Unknown => SelFault::BadOp { at },
            TokenFault::Ended => SelFault::Cut { at },
        }
    }
}

impl Token<'_> {
    /// How many operands stand after it, of which there were so many, or `None` where it needs more.
    fn operands_after(&self, operands: usize) -> Option<usize>
        requires { operands ≤ 64 }
        ensures trees { Leaves result operands (trees_after (token_value self.now)) }
        ensures more { IfSome result (λ after. after ≤ operands + 1) }
    {
        match self {
            Token::Compare(_) => Some(operands + 1),
            Token::Operate(operator) => operator.operands_after(operands),
        }
    }
}

impl Operator {
    /// How many operands stand after it, of which there were so many, or `None` where it needs more.
    fn operands_after(self, operands: usize) -> Option<usize>
        requires { operands ≤ 64 }
        ensures trees { Leaves result operands (operated self) }
        ensures more { IfSome result (λ after. after ≤ operands + 1) }
    {
        let needed = self.operands();
        if operands < needed {
            return None;
        }
        Some(operands + 1 - needed)
    }
}
