//! Globs: patterns that whole texts match.

ghost use Rattle.std.specs.Prelude.{◌≡◌, ◌≤◌, ◌==◌, ◌&&◌, ◌<◌, ◌+◌, [], ◌∷◌, ◌↔◌, false, List, ℕ, length, take, drop, IsTrue, IfNone, IfSome};
ghost use Rattle.std.specs.List.{list_any};
ghost use Rattle.trace_filter.specs.Globs.{ranges_of, parts_of, parts_from, part_of, class_from as spec_class_from, class_piece as spec_class_piece, itself as spec_itself, is_member as spec_is_member, is_in_class};
ghost use Rattle.trace_filter.specs.Marks.{is_match, advance as spec_advance, advance_all, mark_at, spread as spec_spread, shift as spec_shift, first_row as spec_first_row};
ghost use Rattle.trace_filter.specs.private.SeenGlobs.{class_of, glob_part_of, IsPartPiece};

use trace_lex::len_before;

/// A text that is matched has fewer bytes than this.
pub(crate) const TEXT_END: usize = 256;

/// The bytes that may stand at one offset of a text: those that the members write, or all others.
#[derive(Clone, Copy)]
pub(crate) struct Class<'a> {
    negated: bool,
    members: &'a [u8],
}

#[derive(Clone, Copy)]
pub(crate) enum Element<'a> {
    /// `*`.
    AnyBytes,
    OneByte(Class<'a>),
}

/// A part, and how many bytes behind its first it takes.
#[derive(Clone, Copy)]
pub(crate) struct ReadElement<'a> {
    part: Element<'a>,
    more: usize,
}

/// Whether the members of a class write a byte: each by itself, or two with a `-` between them as a range.
fn is_member(members: &[u8], byte: u8) -> bool
    ensures { result ≡ spec_is_member members.now byte }
{
    let mut rest = members;
    'members: while let Some((lower, others)) = rest.split_first() {
        let (upper, behind) = range_from(*lower, others);
        if *lower <= byte && byte <= upper {
            return true;
        }
        rest = behind;
    }
    false
}

/// The upper end of the range that the first member begins, and what stands behind it.
fn range_from(lower: u8, others: &[u8]) -> (u8, &[u8])
    ensures range { ranges_of (lower ∷ others.now) ≡ record { lower = lower; upper = result.0 } ∷ ranges_of result.1.now }
    ensures shorter { length result.1.now ≤ length others.now }
{
    match others {
        [b'-', upper, behind @ ..] => (*upper, behind),
        _ => (lower, others),
    }
}

impl Class<'_> {
    fn has(&self, byte: u8) -> bool
        ensures { result ≡ is_in_class (class_of self.now) byte }
    {
        is_member(self.members, byte) != self.negated
    }
}

/// The piece of a byte that stands for itself.
fn itself(first: u8, byte: &[u8]) -> ReadElement<'_>
    requires { byte.now ≡ first ∷ [] }
    ensures { IsPartPiece (spec_itself first) result 0 }
{
    ReadElement {
        part: Element::OneByte(Class {
            negated: false,
            members: byte,
        }),
        more: 0,
    }
}

/// The class whose members begin the bytes, which stand so many bytes behind the `[`.
fn class_from(negated: bool, before: usize, bytes: &[u8]) -> ReadElement<'_>
    requires { before ≤ 1 }
    ensures { IsPartPiece (spec_class_from negated before bytes.now) result (before + length bytes.now) }
{
    let Some((_, rest)) = bytes.split_first() else {
        return itself(b'[', b"[");
    };
    let size = len_before(b']', rest);
    if size == rest.len() {
        return itself(b'[', b"[");
    }
    ReadElement {
        part: Element::OneByte(Class {
            negated,
            members: &bytes[..1 + size],
        }),
        more: before + (size + 2),
    }
}

/// What begins with a `[`.
fn class_piece(rest: &[u8]) -> ReadElement<'_>
    ensures { IsPartPiece (spec_class_piece rest.now) result (length rest.now) }
{
    match rest {
        [b'!', members @ ..] => class_from(true, 1, members),
        _ => class_from(false, 0, rest),
    }
}

/// The part that begins with a byte.
#[tactic(auto, unfolding(crate::specs::Globs::part_of))]
fn first_part<'a>(bytes: &'a [u8], first: u8, rest: &'a [u8]) -> ReadElement<'a>
    requires { bytes.now ≡ first ∷ rest.now }
    ensures { IsPartPiece (part_of first rest.now) result (length rest.now) }
{
    match first {
        b'*' => ReadElement {
            part: Element::AnyBytes,
            more: 0,
        },
        b'?' => ReadElement {
            part: Element::OneByte(Class {
                negated: true,
                members: b"",
            }),
            more: 0,
        },
        b'[' => class_piece(rest),
        _ => itself(first, &bytes[..1]),
    }
}

/// Marks each front of a text that has a marked one within.
fn spread(row: &mut [bool])
    ensures { row.new ≡ spec_spread false row.old }
{
    let mut seen = false;
    for mark in row.iter_mut() {
        seen |= *mark;
        *mark = seen;
    }
}

/// Marks each front of a text that is a marked one and a byte of a class behind it.
fn shift(class: Class, row: &mut [bool], text: &[u8])
    requires { length row.old ≡ length text.now + 1 }
    ensures { row.new ≡ spec_shift (class_of class.entry) false row.old text.now }
{
    let mut carry = false;
    for (offset, byte) in text.iter().enumerate() {
        let next = row[offset] & class.has(*byte);
        row[offset] = carry;
        carry = next;
    }
    row[text.len()] = carry;
}

/// Moves the marks over one part.
fn advance(part: Element, row: &mut [bool], text: &[u8])
    requires { length row.old ≡ length text.now + 1 }
    ensures { row.new ≡ spec_advance (glob_part_of part.entry) row.old text.now }
{
    match part {
        Element::AnyBytes => spread(row),
        Element::OneByte(class) => shift(class, row, text),
    }
}

/// The part that begins with a byte. Once a `[` was found without its `]`, no later one has one, and none is looked for.
#[tactic(auto, unfolding(crate::specs::Globs::part_of))]
fn next_part<'a>(bytes: &'a [u8], first: u8, rest: &'a [u8], may_close: bool) -> ReadElement<'a>
    requires cut { bytes.now ≡ first ∷ rest.now }
    requires closed { may_close ≡ false → spec_class_piece rest.now ≡ spec_itself 91 }
    ensures { IsPartPiece (part_of first rest.now) result (length rest.now) }
{
    if first == b'[' && !may_close {
        itself(b'[', b"[")
    } else {
        first_part(bytes, first, rest)
    }
}

/// Whether a part is a `[` without its `]`.
fn is_unclosed(first: u8, more: usize) -> bool
    ensures { result ≡ (first == 91 && more == 0) }
{
    first == b'[' && more == 0
}

/// Moves the marks over the parts of a pattern, and tells the last.
fn match_parts(pattern: &[u8], row: &mut [bool], text: &[u8]) -> bool
    requires { length row.old ≡ length text.now + 1 }
    ensures { result ≡ mark_at (length text.now) (advance_all (parts_of pattern.now) row.old text.now) }
{
    let mut rest = pattern;
    let mut may_close = true;
    'parts: while let Some((first, others)) = rest.split_first() {
        let piece = next_part(rest, *first, others, may_close);
        advance(piece.part, row, text);
        may_close &= !is_unclosed(*first, piece.more);
        rest = &others[piece.more..];
    }
    row[text.len()]
}

/// Whether a text matches a pattern, in which a `*` stands for any bytes, a `?` for any one, a `[..]` for one of its class, and each further
/// byte for itself. It takes as many steps as the pattern has bytes for each offset of the text.
pub(crate) fn matches(pattern: &[u8], text: &[u8]) -> bool
    requires { length text.now < 256 }
    ensures { result ≡ is_match (parts_of pattern.now) text.now }
{
    let mut marks = [false; TEXT_END];
    let row = &mut marks[..text.len() + 1];
    row[0] = true;
    match_parts(pattern, row, text)
}
