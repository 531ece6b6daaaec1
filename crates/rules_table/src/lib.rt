// The rule desk's product over its own table, a `&mut` slice of rule records that C lends (document 02, [11]). `rules::prepare` checks and marks, and `turned` is one record.
#![tactic(auto)]

ghost use Rattle.std.specs.Prelude.{◌≡◌, ◌≤◌, map, length};
ghost use Rattle.lineage.specs.Calls.{ordinary};
ghost use Rattle.rules_table.specs.Table.{Allowed, rule_by};

use numbers::clear_marks;
use rules::{SettleRefusal, prepare};
use rules_states::state_after;

// A rule record: rule number, vertex and state. The state is a number, since an enum has no layout in C.
#[repr(C)]
#[derive(Clone, Copy, Debug, PartialEq, Eq)]
pub struct Rule {
    pub rule: u32,
    pub vertex: u32,
    pub state: u32,
}

// What the desk is given: a refusal with its extra number, or 0 and 0.
#[repr(C)]
#[derive(Clone, Copy, Debug, PartialEq, Eq)]
pub struct RulesSettled {
    pub refusal: u32,
    pub extra: usize,
}

impl From<Result<(), SettleRefusal>> for RulesSettled {
    ghost use Rattle.rules.specs.Settled.{settled_of};
    ghost use Rattle.rules_table.specs.Table.{desk_settled};

    ghost from_gives = { λ r desk. desk ≡ desk_settled (settled_of r) };

    fn from(r: Result<(), SettleRefusal>) -> RulesSettled {
        let (refusal, extra) = match r {
            Ok(()) => (0, 0),
            Err(refusal) => (refusal.number(), refusal.extra()),
        };
        RulesSettled { refusal, extra }
    }
}

// A record afterwards, by the mark of its vertex.
fn turned(marks: &[u8], n: usize, r: Rule) -> Rule
    requires { n ≤ length marks.now }
    ensures { result ≡ rule_by marks.now n r }
{
    Rule {
        rule: r.rule,
        vertex: r.vertex,
        state: state_after(marks, n, r.vertex, r.state),
    }
}

// Turns all records of a table.
fn turn_all(marks: &[u8], rules: &mut [Rule], n: usize)
    requires { n ≤ length marks.now }
    ensures { rules.new ≡ map (rule_by marks.now n) rules.old }
{
    for r in rules.iter_mut() {
        *r = turned(marks, n, *r);
    }
}

// Settles a table of rules by a stored index of form 1 or 2.
#[unsafe(no_mangle)]
pub extern "C" fn drobisten_settle_rules(
    index: &[u8],
    changed: &[u32],
    marks: &mut [u8],
    work: &mut [u32],
    rules: &mut [Rule],
) -> RulesSettled
    ensures { Allowed ordinary index.now changed.now marks.old work.old rules.old result marks.new work.new rules.new }
{
    match prepare(1, 2, index, changed, marks, work) {
        Ok(n) => {
            turn_all(marks, rules, n);
            clear_marks(marks, n);
            RulesSettled::from(Ok(()))
        }
        Err(r) => RulesSettled::from(Err(r)),
    }
}
