// The lines of a DWARF entry, one for each row that has something new: the CFA's rule and the registers' rules that differ from those last seen.
// The rules of a row whose CFA is not written are looked at twice: first for whether one of them is. Writers take room and place, as text's do.
ghost use Rattle.std.specs.Prelude.{◌≡◌, ◌&&◌, [], ◌++◌, ◌+◌, ◌<◌, ◌≤◌, cond, eqb, get_or, take, T, ◌==◌, position};
ghost use Rattle.std.specs.List.{list_any};
ghost use Rattle.text.specs.Text.{Put, ascii};
ghost use Rattle.text.specs.Tests.{any};
ghost use Rattle.names.specs.Names.{cfi_name};
ghost use Rattle.dwarf.specs.Dwarf.{rows, registers, once, seen, differs, cfa_differs, remember, no_cfa, nothing_seen};
ghost use Rattle.dwarf.specs.Dwarf.{form_bytes, rule_bytes, cfa_bytes, ra_bytes, default_bytes, start_bytes, line_bytes};
ghost use Rattle.dwarf.specs.Dwarf.{ran_row, ran_rules, ran_rows, dwarf_text};
ghost use Rattle.dwarf.specs.Cache.{lookup, cfa_if, cfa_of, newly, fresh, Forms, formatted, Remembers, After};
ghost use Rattle.dwarf.specs.Slices.{rules_in, row_is, new_in, moved_in};

use crate::body::{Body, OFFSET, REGISTER, RowWords, RuleWords, SAME, VALUE_OFFSET};
use crate::{CfaRule, Fde, Placed, RegisterRule, RowState, RuleCache};
use lines::{put_init, put_later};
use names::{cfi_register_name, has_cfi_name};
use rules::{Form, Reg, Rule, cfa_name, put_rule, ra_name};
use text::put_byte;

// The families (numbers, as in tables) whose return address is in a register at a function's start: from the first of these to the second.
const FIRST_IN_REGISTER: u32 = 3;

const LAST_IN_REGISTER: u32 = 9;

// ---- the rules last seen

// That there is room for the registers that rules add is asked in five contracts: it is a fact of the cache and of the rules ahead, and a struct of
// both would be made anew at each rule.
impl RuleCache {
    #[tactic(auto, unfolding(crate::specs::Cache::lookup, crate::specs::Cache::first_in, crate::specs::Dwarf::nothing_seen))]
    fn start() -> RuleCache
        ensures { (result.count ≡ 0) × (lookup result ≡ nothing_seen) }
    {
        RuleCache {
            register: [0; 64],
            kind: [0; 64],
            value: [0; 64],
            count: 0,
        }
    }

    // The place of a register.
    fn place(&self, register: u32) -> Option<usize>
        ensures { result ≡ position (λ r. r == register) (take self.now.count self.now.register) }
    {
        let count = self.count;
        self.register[..count].iter().position(|r| *r == register)
    }

    // Whether a rule differs from that at place q.
    fn differs_at(&self, q: usize, rule: RegisterRule) -> bool
        requires { q < 64 }
        ensures { result ≡ differs (seen (get_or self.now.kind q 0) (get_or self.now.value q 0)) rule.kind rule.value }
    {
        self.kind[q] != rule.kind || self.value[q] != rule.value
    }

    // Whether a rule differs from the one last seen.
    fn differs(&self, rule: RegisterRule) -> bool
        ensures { result ≡ differs (lookup self.now rule.register) rule.kind rule.value }
    {
        match self.place(rule.register) {
            Some(q) => self.differs_at(q, rule),
            None => true,
        }
    }

    // A rule is the one last seen of its register from now on; whether it differs from the one before.
    fn remember(&mut self, rule: RegisterRule) -> bool
        requires { self.old.count + newly (lookup self.old rule.register) ≤ 64 }
        ensures changes { result ≡ differs (lookup self.old rule.register) rule.kind rule.value }
        ensures sees { lookup self.new ≡ remember (lookup self.old) rule }
        ensures counts { self.new.count ≡ self.old.count + newly (lookup self.old rule.register) }
    {
        match self.place(rule.register) {
            Some(q) => {
                let differs = self.differs_at(q, rule);
                self.kind[q] = rule.kind;
                self.value[q] = rule.value;
                differs
            }
            None => {
                let q = self.count;
                self.register[q] = rule.register;
                self.kind[q] = rule.kind;
                self.value[q] = rule.value;
                self.count = q + 1;
                true
            }
        }
    }

    fn remember_all(&mut self, rules: &[RuleWords])
        requires { self.old.count + fresh (lookup self.old) (rules_in rules.now) ≤ 64 }
        ensures { Remembers self.old (rules_in rules.now) self.new }
    {
        for words in rules {
            self.remember(RegisterRule::from(*words));
        }
    }
}

// ---- what is written of a rule; by the family alone, where nothing else of an Fde is used

#[tactic(auto, using(crate::proofs::Forms::none_any), unfolding(crate::specs::Cache::formed, lines::specs::Lines::form_text, rules::specs::Rules::form_of, rules::specs::Rules::reg_name))]
fn register_form(family: u32, register: u32) -> Option<Form>
    ensures { Forms (cfi_name family register) result }
{
    has_cfi_name(family, register).then(|| Form::Register(Reg::Cfi(family, register)))
}

// The value is a register; the tables have none past 65,535, and so none that is no u32.
#[tactic(auto, using(crate::proofs::Forms::name_far), unfolding(text::specs::Tests::any, crate::specs::Cache::formed))]
fn value_form(family: u32, value: u64) -> Option<Form>
    ensures { Forms (cfi_name family value) result }
{
    let register = u32::try_from(value).ok()?;
    register_form(family, register)
}

#[tactic(auto, using(crate::proofs::Ints::cast_is), unfolding(crate::specs::Dwarf::form_bytes, crate::specs::Cache::formed, lines::specs::Lines::form_text, rules::specs::Rules::form_of, text::specs::Tests::any))]
fn rule_form(family: u32, rule: RegisterRule) -> Option<Form>
    ensures { Forms (form_bytes family rule) result }
{
    match rule.kind {
        SAME => register_form(family, rule.register),
        OFFSET => Some(Form::AtCfaPlus(rule.value.cast_signed())),
        VALUE_OFFSET => Some(Form::CfaPlus(rule.value.cast_signed())),
        REGISTER => value_form(family, rule.value),
        _ => None,
    }
}

// " .cfa: R N +"; an expression writes nothing.
#[tactic(auto, using(crate::proofs::Ints::cast_is), unfolding(crate::specs::Dwarf::cfa_bytes, crate::specs::Cache::formatted, lines::specs::Lines::form_text, lines::specs::Lines::rule_text, rules::specs::Rules::rule_of, rules::specs::Rules::reg_name, rules::specs::Rules::form_of))]
fn format_cfa(family: u32, cfa: CfaRule) -> Option<Rule>
    ensures { formatted result ≡ cfa_bytes family cfa }
{
    let CfaRule::RegisterPlus(register, offset) = cfa else {
        return None;
    };
    has_cfi_name(family, register).then(|| {
        let reg = Reg::Cfi(family, register);
        let form = Form::RegisterPlus(reg, offset.cast_signed());
        let name = cfa_name();
        Rule { name, form }
    })
}

// The CFA's rule, where it differs from the one last seen.
#[tactic(auto, unfolding(crate::specs::Cache::formatted))]
fn new_cfa(family: u32, cfa: CfaRule, last: Option<CfaRule>) -> Option<Rule>
    ensures { formatted result ≡ cond (cfa_differs (cfa_if last) cfa) (cfa_bytes family cfa) [] }
{
    if last == Some(cfa) {
        return None;
    }
    format_cfa(family, cfa)
}

#[tactic(auto, using(text::specs::Text::Laws::put_none), unfolding(crate::specs::Cache::formatted))]
fn put_formatted(out: &mut [u8], at: usize, rule: Option<Rule>) -> usize
    ensures { Put out.old at (formatted rule) out.new result }
{
    match rule {
        Some(rule) => put_rule(out, at, rule),
        None => at,
    }
}

// ---- a row

// Whether a register's rule differs from the one last seen.
fn is_moved(rules: &[RuleWords], register: u32, cache: &RuleCache) -> bool
    ensures { result ≡ list_any (moved_in register (lookup cache.now)) rules.now }
{
    rules.iter().any(|words| {
        let rule = RegisterRule::from(*words);
        rule.register == register && cache.differs(rule)
    })
}

impl Fde {
    // The return register is called .ra, any other by its table name.
    #[tactic(auto, using(crate::proofs::Forms::named_some, crate::proofs::Forms::no_name, crate::proofs::Forms::no_form), unfolding(crate::specs::Dwarf::rule_bytes, crate::specs::Cache::formatted, crate::specs::Cache::formed, lines::specs::Lines::rule_text, rules::specs::Rules::rule_of, text::specs::Tests::any))]
    fn format_rule(self, rule: RegisterRule) -> Option<Rule>
        ensures { formatted result ≡ rule_bytes self.family self.ra rule }
    {
        let form = rule_form(self.family, rule)?;
        if rule.register == self.ra {
            let name = ra_name();
            return Some(Rule { name, form });
        }
        has_cfi_name(self.family, rule.register).then(|| {
            let name = cfi_register_name(self.family, rule.register);
            Rule { name, form }
        })
    }

    // Where the return address is in a register, families 3 to 9: " .ra: Q".
    #[tactic(auto, unfolding(crate::specs::Dwarf::ra_bytes, crate::specs::Cache::formatted, lines::specs::Lines::form_text, lines::specs::Lines::rule_text, rules::specs::Rules::rule_of, rules::specs::Rules::reg_name, rules::specs::Rules::form_of))]
    fn format_default(self) -> Option<Rule>
        ensures { formatted result ≡ ra_bytes self.family self.ra }
    {
        let kept = (FIRST_IN_REGISTER..=LAST_IN_REGISTER).contains(&self.family);
        (kept && has_cfi_name(self.family, self.ra)).then(|| {
            let name = ra_name();
            let form = Form::Register(Reg::Cfi(self.family, self.ra));
            Rule { name, form }
        })
    }

    // Whether a register has a name: as the return register, or in its family's table.
    #[tactic(auto, unfolding(text::specs::Tests::any))]
    fn is_named(self, register: u32) -> bool
        ensures { result ≡ any (cond (eqb register self.ra) (ascii ".ra") (cfi_name self.family register)) }
    {
        register == self.ra || has_cfi_name(self.family, register)
    }

    // Whether a rule can be written: it has the names that it needs.
    #[tactic(auto, using(crate::proofs::Forms::some_any))]
    fn is_writable(self, rule: RegisterRule) -> bool
        ensures { result ≡ any (rule_bytes self.family self.ra rule) }
    {
        self.format_rule(rule).is_some()
    }

    // Whether a rule is written: it differs from the one last seen, and can be. Its register's name is asked first: that takes less time than to look
    // for the one last seen, and some families have no names.
    #[tactic(auto, using(crate::proofs::Forms::unnamed), unfolding(crate::specs::Dwarf::rule_bytes))]
    fn is_new(self, rule: RegisterRule, cache: &RuleCache) -> bool
        ensures { result ≡ (differs (lookup cache.now rule.register) rule.kind rule.value && any (rule_bytes self.family self.ra rule)) }
    {
        self.is_named(rule.register) && cache.differs(rule) && self.is_writable(rule)
    }

    // Whether a rule of a row is written.
    fn any_new(self, rules: &[RuleWords], cache: &RuleCache) -> bool
        ensures { result ≡ list_any (new_in self.family self.ra (lookup cache.now)) rules.now }
    {
        rules
            .iter()
            .any(|words| self.is_new(RegisterRule::from(*words), cache))
    }

    // The rules of a row that differ from those last seen; from now on they are these.
    fn put_rules(
        self,
        out: &mut [u8],
        at: usize,
        rules: &[RuleWords],
        cache: &mut RuleCache,
    ) -> usize
        requires { cache.old.count + fresh (lookup cache.old) (rules_in rules.now) ≤ 64 }
        ensures puts { Put out.old at (ran_rules self.family self.ra (lookup cache.old) (rules_in rules.now)) out.new result }
        ensures sees { Remembers cache.old (rules_in rules.now) cache.new }
    {
        let mut p = at;
        for words in rules {
            let rule = RegisterRule::from(*words);
            let changed = cache.remember(rule);
            if changed {
                p = put_formatted(out, p, self.format_rule(rule));
            }
        }
        p
    }

    // The beginning of a row's line: INIT at the first start.
    #[tactic(auto, unfolding(crate::specs::Dwarf::start_bytes, lines::specs::Lines::init_text, lines::specs::Lines::later_text))]
    fn put_start(self, out: &mut [u8], at: usize, start: u64) -> usize
        ensures { Put out.old at (start_bytes self start) out.new result }
    {
        let address = start.saturating_sub(self.load);
        if start == self.start {
            return put_init(out, at, address, self.length);
        }
        put_later(out, at, false, address)
    }

    // The default, at the first start, where the return register's rule does not change.
    #[tactic(auto, unfolding(crate::specs::Dwarf::default_bytes, crate::specs::Cache::formatted))]
    fn new_default(self, row: RowWords, cache: &RuleCache) -> Option<Rule>
        ensures { let moved = list_any (moved_in self.ra (lookup cache.now)) row.entry.rules.now in
            formatted result ≡ default_bytes self (row_is row.entry).start moved }
    {
        if row.start() == self.start && !is_moved(row.rules, self.ra, cache) {
            return self.format_default();
        }
        None
    }

    // The line of a row, with its CFA's rule where that is new. The rules of the row are those last seen from now on.
    fn put_line(
        self,
        out: &mut [u8],
        at: usize,
        row: RowWords,
        cfa: Option<Rule>,
        cache: &mut RuleCache,
    ) -> usize
        requires { cache.old.count + fresh (lookup cache.old) (rules_in row.rules.now) ≤ 64 }
        ensures puts { let w = row_is row.entry in
            let moved = list_any (moved_in self.ra (lookup cache.old)) row.entry.rules.now in
            Put out.old at (line_bytes self w.start (formatted cfa ++ ran_rules self.family self.ra (lookup cache.old) w.rules) moved) out.new result }
        ensures sees { Remembers cache.old (rules_in row.entry.rules.now) cache.new }
    {
        let default = self.new_default(row, cache);
        let p = self.put_start(out, at, row.start());
        let p = put_formatted(out, p, cfa);
        let p = self.put_rules(out, p, row.rules, cache);
        let p = put_formatted(out, p, default);
        put_byte(out, p, b'\n')
    }

    // One row: its line, unless nothing is written, and what is last seen after it.
    fn put_row(self, out: &mut [u8], at: usize, row: RowWords, mut state: RowState) -> Placed
        requires room { state.rules.count + fresh (lookup state.rules) (rules_in row.rules.now) ≤ 64 }
        requires once { T (once (registers (rules_in row.rules.now))) }
        ensures writes { Put out.old at (ran_row self (cfa_of state) (lookup state.rules) (row_is row.entry)) out.new result.at }
        ensures goes { After state (row_is row.entry) result.state }
    {
        let cfa = row.cfa();
        let new = new_cfa(self.family, cfa, state.cfa);
        state.cfa = Some(cfa);
        if new.is_none() && !self.any_new(row.rules, &state.rules) {
            state.rules.remember_all(row.rules);
            return Placed { at, state };
        }
        let at = self.put_line(out, at, row, new, &mut state.rules);
        Placed { at, state }
    }
}

// ---- all rows

impl RowState {
    fn start() -> RowState
        ensures { (cfa_of result ≡ no_cfa) × (result.rules.count ≡ 0) × (lookup result.rules ≡ nothing_seen) }
    {
        let rules = RuleCache::start();
        RowState { cfa: None, rules }
    }
}

impl Fde {
    fn put_rows(self, out: &mut [u8], at: usize, body: Body) -> usize
        ensures { Put out.old at (ran_rows self no_cfa nothing_seen (rows body.entry.words.now)) out.new result }
    {
        let mut p = at;
        let mut state = RowState::start();
        for row in body.rows {
            let placed = self.put_row(out, p, row, state);
            p = placed.at;
            state = placed.state;
        }
        p
    }
}

#[tactic(auto, unfolding(crate::specs::Dwarf::dwarf_text))]
pub(crate) fn put_entry(out: &mut [u8], at: usize, body: Body) -> usize
    ensures { Put out.old at (dwarf_text body.entry.words.now) out.new result }
{
    body.fde().put_rows(out, at, body)
}
