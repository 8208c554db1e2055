// What becomes of a DWARF entry: refused by 4, skipped, refused by 6, or written.
ghost use Rattle.std.specs.Prelude.{◌≡◌, ◌&&◌, cond, [], ◌∷◌, false, eqb, leb, ltb, MatchOption};
ghost use Rattle.std.specs.List.{list_all, list_any};
ghost use Rattle.dwarf.specs.Dwarf.{rows, registers, once, cfa_fits, rows_fit, dwarf_layout, rules_of, distinct};
ghost use Rattle.dwarf.specs.Dwarf.{dwarf_skipped, dwarf_reach, dwarf_judged, any_below};
ghost use Rattle.dwarf.specs.Cache.{fits, Known};
ghost use Rattle.dwarf.specs.Slices.{rules_in, fits_in, names_in, row_fits_in, row_is, rows_left};

use crate::body::{
    ALL_ONES, Body, CFA_EXPRESSION, CFA_REGISTER, HEAD_WORDS, INITIAL_ADDRESS_AT, OTHER, REGISTER,
    REGISTER_VALUES, ROW_WORDS, RULE_WORDS, RowHead, RowWords, Rows, RuleWords, SAME, word64,
};
use crate::{RegisterRule, Registers};
use entry::Fate;
use refusal::Refusal;

// The largest that a body may have (docs/BOOK.md).
const MOST_FAMILY: u32 = 10;

const MOST_ROWS: u32 = 1024;

const MOST_RULES: usize = 64;

// The registers that rules may name in a body.
const MOST_REGISTERS: usize = 64;

// Register numbers end here.
const REGISTERS: u32 = 65536;

// ---- refusal 4

fn kind_fits(kind: u32, value: u64) -> bool
    ensures { result ≡ cond (eqb kind 3) (ltb value 65536) (leb kind 4) }
{
    match kind {
        REGISTER => value < REGISTER_VALUES,
        SAME..=OTHER => true,
        _ => false,
    }
}

fn rule_fits(rule: RegisterRule) -> bool
    ensures { result ≡ fits rule }
{
    rule.register < REGISTERS && kind_fits(rule.kind, rule.value)
}

fn rules_fit(rules: &[RuleWords]) -> bool
    ensures { result ≡ list_all fits_in rules.now }
{
    rules
        .iter()
        .all(|words| rule_fits(RegisterRule::from(*words)))
}

fn names_register(rules: &[RuleWords], register: u32) -> bool
    ensures { result ≡ list_any (names_in register) rules.now }
{
    rules.iter().any(|&[named, ..]| named == register)
}

// No register twice. Each turn needs the rules behind its own, which a `for` does not have.
fn named_once(mut rules: &[RuleWords]) -> bool
    ensures { result ≡ once (registers (rules_in rules.entry.now)) }
{
    while let Some(([register, ..], behind)) = rules.split_first() {
        if names_register(behind, *register) {
            return false;
        }
        rules = behind;
    }
    true
}

// Kind 0 with a register, or 1.
#[tactic(auto, unfolding(crate::specs::Dwarf::cfa_fits))]
fn cfa_fits(head: &RowHead) -> bool
    ensures { result ≡ cfa_fits head.now 0 }
{
    let [_, _, _, _, kind, register, ..] = *head;
    match kind {
        CFA_REGISTER => register < REGISTERS,
        CFA_EXPRESSION => true,
        _ => false,
    }
}

impl<'a> RowWords<'a> {
    #[tactic(auto, unfolding(crate::specs::Slices::row_fits_in))]
    fn fits(self) -> bool
        ensures { result ≡ row_fits_in self.entry.head.now self.entry.rules.now }
    {
        cfa_fits(self.head)
            && self.rules.len() <= MOST_RULES
            && rules_fit(self.rules)
            && named_once(self.rules)
    }
}

impl<'a> Rows<'a> {
    // The words as so many rows; none where one does not fit, or there are too few or too many.
    fn read(words: &'a [u32], count: u32) -> Option<Rows<'a>>
        ensures { MatchOption result (rows_fit words.now count 0 ≡ false) (λ r. (r.words.now ≡ words.now) × (r.left ≡ count)) }
    {
        let mut rest = words;
        for _ in 0..count {
            let (row, behind) = RowWords::split(rest)?;
            if !row.fits() {
                return None;
            }
            rest = behind;
        }
        if !rest.is_empty() {
            return None;
        }
        Some(Rows { words, left: count })
    }
}

// ---- refusal 4: the registers of a body

impl Registers {
    fn start() -> Registers
        ensures { result.count ≡ 0 }
    {
        Registers {
            number: [0; 64],
            count: 0,
        }
    }

    // Whether there was room for a register.
    fn meet(&mut self, register: u32) -> bool
        ensures { Known self.old (register ∷ []) self.new result }
    {
        let count = self.count;
        if self.number[..count].contains(&register) {
            return true;
        }
        if count == MOST_REGISTERS {
            return false;
        }
        self.number[count] = register;
        self.count = count + 1;
        true
    }
}

// Whether there was room for a row's registers.
fn meet_rules(rules: &[RuleWords], met: &mut Registers) -> bool
    ensures { Known met.old (registers (rules_in rules.now)) met.new result }
{
    for [register, ..] in rules {
        if !met.meet(*register) {
            return false;
        }
    }
    true
}

// At most 64 registers in all.
fn registers_fit(rows: Rows) -> bool
    ensures { result ≡ leb (distinct [] (registers (rules_of (rows_left rows.entry)))) 64 }
{
    // Without the rows' heads there are so few words that they hold at most 64 rules.
    if rows.words.len() <= RULE_WORDS * MOST_REGISTERS + ROW_WORDS * rows.left as usize {
        return true;
    }
    let mut met = Registers::start();
    for row in rows {
        if !meet_rules(row.rules, &mut met) {
            return false;
        }
    }
    true
}

// ---- refusal 4: all of it

fn head_fits(family: u32, ra: u32, count: u32) -> bool
    ensures { result ≡ (leb family 10 && (ltb ra 65536 && leb count 1024)) }
{
    family <= MOST_FAMILY && ra < REGISTERS && count <= MOST_ROWS
}

impl<'a> Body<'a> {
    // The body of these words; none where refusal 4 applies: ranges, and exactly the words that the counts demand.
    pub(crate) fn read(words: &'a [u32]) -> Option<Body<'a>>
        ensures { MatchOption result (dwarf_layout words.now ≡ false) (λ b. b.words.now ≡ words.now) }
    {
        let (&[family, _, _, _, _, ra, count], behind) = words.split_first_chunk::<HEAD_WORDS>()?;
        if !head_fits(family, ra, count) {
            return None;
        }
        let rows = Rows::read(behind, count)?;
        if !registers_fit(rows) {
            return None;
        }
        Some(Body { words, rows })
    }

    // ---- skipping and refusal 6

    #[tactic(auto, unfolding(crate::specs::Dwarf::dwarf_skipped))]
    fn skipped(self) -> bool
        ensures { result ≡ dwarf_skipped self.entry.words.now }
    {
        word64(self.words, INITIAL_ADDRESS_AT) == ALL_ONES
            || self.rows.left == 0
            || self.first_start() < self.load()
    }

    // A row that is not at the first start and starts below load.
    fn any_below(self, first: u64, load: u64) -> bool
        ensures { result ≡ any_below first load (rows self.entry.words.now) }
    {
        let mut rows = self.rows;
        rows.any(|row| row.start() != first && row.start() < load)
    }

    // Refusal 6 does not apply: no row ends before the first start or starts below load.
    #[tactic(auto, unfolding(crate::specs::Dwarf::dwarf_reach))]
    fn reach(self) -> bool
        ensures { result ≡ dwarf_reach self.entry.words.now }
    {
        let first = self.first_start();
        !(self.last_end() < first || self.any_below(first, self.load()))
    }

    // What becomes of its entry: skipped, refused by 6, or written.
    #[tactic(auto, unfolding(crate::specs::Dwarf::dwarf_judged))]
    pub(crate) fn judge(self) -> Result<Fate, Refusal>
        ensures { result ≡ dwarf_judged self.entry.words.now }
    {
        if self.skipped() {
            return Ok(Fate::Skip);
        }
        if !self.reach() {
            return Err(Refusal::Reach);
        }
        Ok(Fate::Write)
    }
}
