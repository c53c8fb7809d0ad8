//! The tokens of a selection, read one after another.

ghost use Rattle.std.specs.Prelude.{◌≡◌, ◌≤◌, ◌<◌, length, IfOk};
ghost use Rattle.selection.specs.Layout.{operands_of};
ghost use Rattle.selection.specs.Reading.{operator_of, read_comparison, relation_of, token_in, token_len};
ghost use Rattle.selection.specs.Values.{ReadsAs, token_value};

use px_base::le16;

/// How the data of an item stands to a constant.
#[derive(Clone, Copy, Debug, PartialEq, Eq)]
pub enum Relation {
    /// They are equal.
    EqualTo,
    /// They aren't.
    NotEqualTo,
    /// The data is less.
    LessThan,
    /// The data is less, or they are equal.
    AtMost,
    /// The data is greater.
    GreaterThan,
    /// The data is greater, or they are equal.
    AtLeast,
}

/// What joins the operands before it.
#[derive(Clone, Copy, Debug, PartialEq, Eq)]
pub enum Operator {
    /// Both of two.
    And,
    /// One of two, or both.
    Or,
    /// Not the one.
    Not,
}

/// A comparison of the items of an id with a constant.
#[derive(Clone, Copy, Debug, PartialEq, Eq)]
pub struct Comparison<'a> {
    /// How the data is to stand to the constant.
    pub relation: Relation,
    /// The items' id.
    pub id: u16,
    /// The constant, 0 to 255 octets, lent from the token.
    pub constant: &'a [u8],
}

/// A token, lent from the octets that it stands in.
#[derive(Clone, Copy, Debug, PartialEq, Eq)]
pub enum Token<'a> {
    /// An operand.
    Compare(Comparison<'a>),
    /// What joins operands.
    Operate(Operator),
}

/// Why no token can be read.
#[derive(Clone, Copy, Debug, PartialEq, Eq)]
pub enum TokenFault {
    /// The octet is no token's first.
    Unknown,
    /// The octets end within a comparison.
    Ended,
}

impl Operator {
    /// How many operands it has.
    pub fn operands(self) -> usize
        ensures { result ≡ operands_of self }
    {
        match self {
            Operator::And | Operator::Or => 2,
            Operator::Not => 1,
        }
    }
}

impl Token<'_> {
    /// How many octets it has.
    pub fn len(&self) -> usize
        ensures { result ≡ token_len (token_value self.now) }
    {
        match self {
            Token::Compare(comparison) => 4 + comparison.constant.len(),
            Token::Operate(_) => 1,
        }
    }
}

/// The relation whose comparisons begin with this octet.
fn relation_in(octet: u8) -> Option<Relation>
    ensures { result ≡ relation_of octet }
{
    match octet {
        0x10 => Some(Relation::EqualTo),
        0x11 => Some(Relation::NotEqualTo),
        0x12 => Some(Relation::LessThan),
        0x13 => Some(Relation::AtMost),
        0x14 => Some(Relation::GreaterThan),
        0x15 => Some(Relation::AtLeast),
        _ => None,
    }
}

/// The operator that is this octet.
fn operator_in(octet: u8) -> Option<Operator>
    ensures { result ≡ operator_of octet }
{
    match octet {
        0x20 => Some(Operator::And),
        0x21 => Some(Operator::Or),
        0x22 => Some(Operator::Not),
        _ => None,
    }
}

/// The comparison with this relation at the front of octets.
fn first_comparison(relation: Relation, octets: &[u8]) -> Result<Token<'_>, TokenFault>
    ensures token { ReadsAs result (read_comparison relation octets.now) }
    ensures within { IfOk result (λ token. token_len (token_value token) ≤ length octets.now) }
{
    let [_, _, _, len, rest @ ..] = octets else {
        return Err(TokenFault::Ended);
    };
    let len = usize::from(*len);
    if rest.len() < len {
        return Err(TokenFault::Ended);
    }
    Ok(Token::Compare(Comparison {
        relation,
        id: le16(octets, 1),
        constant: &rest[..len],
    }))
}

/// The token at the front of octets, of which there are some. Takes no memory.
#[tactic(auto, unfolding(crate::specs::Reading::token_in))]
pub fn first_token(octets: &[u8]) -> Result<Token<'_>, TokenFault>
    requires { 0 < length octets.now }
    ensures token { ReadsAs result (token_in octets.now) }
    ensures within { IfOk result (λ token. token_len (token_value token) ≤ length octets.now) }
{
    match relation_in(octets[0]) {
        Some(relation) => first_comparison(relation, octets),
        None => match operator_in(octets[0]) {
            Some(operator) => Ok(Token::Operate(operator)),
            None => Err(TokenFault::Unknown),
        },
    }
}
