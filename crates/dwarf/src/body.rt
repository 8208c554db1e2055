// What the words of a DWARF body hold (docs/BOOK.md); a 64-bit number is two words, the low one first:
//
//     0                family
//     1                initial address
//     3                load address
//     5                return register
//     6                row count, at most 1,024
//     7                rows, each: start, end (2), CFA kind (4), CFA register (5), CFA offset (6), rule count (8), rules (9)
//     of a rule        register, kind (1), value (2)
//
// and what a rule says of the caller's register, by its kind:
//
//     0 same           -              is the register itself
//     1 offset         N, signed      stands at CFA + N
//     2 value offset   N, signed      is CFA + N
//     3 register       register       is that register
//     4 other          -              cannot be written; it is remembered all the same
ghost use Rattle.std.specs.Prelude.{◌≡◌, ◌^◌, ◌+◌, ◌*◌, ◌<◌, ◌≤◌, drop, length, MatchOption, T};
ghost use Rattle.dwarf.specs.Dwarf.{wide, used_value, rows_from, rows as rows_of, row_count, next_row, rows_fit, dwarf_layout};
ghost use Rattle.dwarf.specs.Dwarf.{load_address, first_start, last_end, fde_of};

use crate::{CfaRule, Fde, RegisterRule};
use entry::word;

// How many words stand in front of the rows, and where those that are read alone do: by place, since contracts name the words of the whole body, and
// a field for the head would need a fact that ties it to them.
pub(crate) const HEAD_WORDS: usize = 7;

pub(crate) const FAMILY_AT: usize = 0;

pub(crate) const INITIAL_ADDRESS_AT: usize = 1;

pub(crate) const LOAD_ADDRESS_AT: usize = 3;

pub(crate) const RETURN_REGISTER_AT: usize = 5;

// How many words a row has in front of its rules, and a rule.
pub(crate) const ROW_WORDS: usize = 9;

pub(crate) const RULE_WORDS: usize = 4;

pub(crate) type RowHead = [u32; ROW_WORDS];

pub(crate) type RuleWords = [u32; RULE_WORDS];

// The kinds of a rule.
pub(crate) const SAME: u32 = 0;

pub(crate) const OFFSET: u32 = 1;

pub(crate) const VALUE_OFFSET: u32 = 2;

pub(crate) const REGISTER: u32 = 3;

pub(crate) const OTHER: u32 = 4;

// The kinds of a CFA: register + offset, or an expression; constants, since a word can hold any other number, and what is read of it is a CfaRule.
pub(crate) const CFA_REGISTER: u32 = 0;

pub(crate) const CFA_EXPRESSION: u32 = 1;

// Register numbers as values of rules, which have 64 bits, end here.
pub(crate) const REGISTER_VALUES: u64 = 65536;

// An initial address that marks an entry as void.
pub(crate) const ALL_ONES: u64 = 0xffff_ffff_ffff_ffff;

fn wide(low: u32, high: u32) -> u64
    ensures { result ≡ low + high * 2 ^ 32 }
{
    u64::from(low) | u64::from(high) << 32
}

// Two words from i on.
#[tactic(auto, unfolding(crate::specs::Dwarf::wide))]
pub(crate) fn word64(words: &[u32], i: usize) -> u64
    requires { i < 2 ^ 32 }
    ensures { result ≡ wide words.now i }
{
    wide(word(words, i), word(words, i + 1))
}

// ---- a rule

#[tactic(auto, unfolding(crate::specs::Dwarf::used_value))]
fn used_value(kind: u32, value: u64) -> u64
    ensures { result ≡ used_value kind value }
{
    match kind {
        OFFSET..=REGISTER => value,
        _ => 0,
    }
}

impl From<RuleWords> for RegisterRule {
    ghost use Rattle.dwarf.specs.Slices.{rule_in};

    ghost from_gives = { λ w r. r ≡ rule_in w };

    #[tactic(auto, unfolding(crate::specs::Slices::rule_in, crate::specs::Dwarf::rule_at, crate::specs::Dwarf::wide))]
    fn from([register, kind, low, high]: RuleWords) -> RegisterRule {
        let value = used_value(kind, wide(low, high));
        RegisterRule {
            register,
            kind,
            value,
        }
    }
}

// ---- a row

// The words in front of a row's rules, and those of the rules.
#[derive(Clone, Copy)]
pub(crate) struct RowWords<'a> {
    pub(crate) head: &'a RowHead,
    pub(crate) rules: &'a [RuleWords],
}

impl<'a> RowWords<'a> {
    ghost use Rattle.dwarf.specs.Slices.{row_of, IsRow};

    // The row that the words begin with, and the words behind it; none where they are too few. Not one with x64's infos: see there.
    pub(crate) fn split(words: &'a [u32]) -> Option<(RowWords<'a>, &'a [u32])>
        ensures { MatchOption result (length words.now < next_row words.now 0)
            (λ p. (next_row words.now 0 ≤ length words.now)
            × IsRow words.now p.0.head.now p.0.rules.now × (p.1.now ≡ drop (next_row words.now 0) words.now)) }
    {
        let (head, behind) = words.split_first_chunk::<ROW_WORDS>()?;
        let [.., count] = *head;
        let end = RULE_WORDS * count as usize;
        if behind.len() < end {
            return None;
        }
        let (rules, _) = behind[..end].as_chunks::<RULE_WORDS>();
        Some((RowWords { head, rules }, &behind[end..]))
    }

    #[tactic(auto, unfolding(crate::specs::Dwarf::wide))]
    pub(crate) fn start(self) -> u64
        ensures { result ≡ (row_of self.entry.head.now self.entry.rules.now).start }
    {
        let [low, high, ..] = *self.head;
        wide(low, high)
    }

    #[tactic(auto, unfolding(crate::specs::Dwarf::wide))]
    fn end(self) -> u64
        ensures { result ≡ (row_of self.entry.head.now self.entry.rules.now).end }
    {
        let [_, _, low, high, ..] = *self.head;
        wide(low, high)
    }

    #[tactic(auto, unfolding(crate::specs::Dwarf::cfa_at, crate::specs::Dwarf::wide))]
    pub(crate) fn cfa(self) -> CfaRule
        ensures { result ≡ (row_of self.entry.head.now self.entry.rules.now).cfa }
    {
        let [_, _, _, _, kind, register, low, high, _] = *self.head;
        match kind {
            CFA_REGISTER => CfaRule::RegisterPlus(register, wide(low, high)),
            _ => CfaRule::Expression,
        }
    }
}

// ---- the rows that are left of a body: so many, and nothing behind them

#[derive(Clone, Copy)]
pub(crate) struct Rows<'a> {
    pub(crate) words: &'a [u32],
    pub(crate) left: u32,
    ghost fit: { T (rows_fit words.now left 0) },
}

impl<'a> Iterator for Rows<'a> {
    ghost use Rattle.std.specs.Iterator.{YieldsFirstBy, item_count};
    ghost use Rattle.dwarf.specs.Slices.{row_is, rows_left};

    type Item = RowWords<'a>;

    ghost next_gives = { YieldsFirstBy row_is rows_left };

    ghost remaining = { item_count rows_left };

    fn next(&mut self) -> Option<RowWords<'a>> {
        if self.left == 0 {
            return None;
        }
        let (row, behind) = RowWords::split(self.words).unwrap();
        self.words = behind;
        self.left -= 1;
        Some(row)
    }
}

// ---- a body

// A body that is laid out: refusal 4 does not apply.
#[derive(Clone, Copy)]
pub(crate) struct Body<'a> {
    pub(crate) words: &'a [u32],
    pub(crate) rows: Rows<'a>,
    ghost laid_out: { T (dwarf_layout words.now) },
    ghost rows_are: { rows_from rows.words.now rows.left 0 ≡ rows_of words.now },
    ghost count_is: { rows.left ≡ row_count words.now },
}

impl<'a> Body<'a> {
    pub(crate) fn load(self) -> u64
        ensures { result ≡ load_address self.entry.words.now }
    {
        word64(self.words, LOAD_ADDRESS_AT)
    }

    #[tactic(auto, unfolding(crate::specs::Dwarf::first_start))]
    pub(crate) fn first_start(self) -> u64
        ensures { result ≡ first_start (rows_of self.entry.words.now) }
    {
        let mut rows = self.rows;
        rows.next().map_or(0, RowWords::start)
    }

    // The last row's end.
    #[tactic(auto, unfolding(crate::specs::Dwarf::last_end))]
    pub(crate) fn last_end(self) -> u64
        ensures { result ≡ last_end 0 (rows_of self.entry.words.now) }
    {
        self.rows.last().map_or(0, RowWords::end)
    }

    #[tactic(auto, unfolding(crate::specs::Dwarf::fde_of))]
    pub(crate) fn fde(self) -> Fde
        ensures { result ≡ fde_of self.entry.words.now }
    {
        let family = word(self.words, FAMILY_AT);
        let ra = word(self.words, RETURN_REGISTER_AT);
        let load = self.load();
        let start = self.first_start();
        let length = self.last_end().saturating_sub(start);
        Fde {
            family,
            ra,
            load,
            start,
            length,
        }
    }
}
