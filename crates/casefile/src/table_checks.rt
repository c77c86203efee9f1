// The checks of one table, field by field in file order.
ghost use Rattle.std.specs.Prelude.{◌≡◌, ◌+◌, ◌<◌, ◌≤◌};
ghost use Rattle.fault.specs.declared.TableFault.TheVariants as faults;
ghost use Rattle.fault.specs.First.{flag, earliest, Answers, Passes};
ghost use Rattle.format.specs.Table.{states, transitions};
ghost use Rattle.casefile.specs.TableFault.{cut_off, counts_fault, start_wrong, start_fault, transition_fault, table_fault, excess_fault, placed};

use fault::{Placed, TableFault, check_each};
use format::Table;
use process::Process;

// A table's fault with the place of the table.
pub(crate) fn placed(place: u8, r: Result<(), TableFault>) -> Result<(), Placed>
    ensures { result ≡ placed place r }
{
    r.map_err(|fault| Placed { place, fault })
}

// The field of `size` bytes that begins at `byte` ends within the file.
fn check_field(table: &Table, byte: u32, size: u32) -> Result<(), TableFault>
    ensures { Passes (flag (cut_off table.now.bytes.now byte size) (faults.CutOff byte)) result }
{
    if table.reach() < byte as usize + size as usize {
        Err(TableFault::CutOff { byte })
    } else {
        Ok(())
    }
}

// A table whose numbers of states and of transitions are within their bounds.
#[derive(Clone, Copy)]
pub(crate) struct Counted<'a> {
    pub(crate) table: Table<'a>,
    ghost few: { states table.bytes.now ≤ 4096 },
    ghost short: { transitions table.bytes.now ≤ 16384 },
}

// The table, once its three counts are right.
fn check_counts<'a>(table: &Table<'a>) -> Result<Counted<'a>, TableFault>
    ensures { Answers (counts_fault table.now.bytes.now) (λ c. c.table.bytes.now ≡ table.now.bytes.now) result }
{
    check_field(table, 0, 4)?;
    let states = table.states();
    if states == 0 || states > 4096 {
        return Err(TableFault::States);
    }
    check_field(table, 4, 4)?;
    if table.transitions() > 16384 {
        return Err(TableFault::Transitions);
    }
    check_field(table, 8, 4)?;
    if table.initial() >= states {
        return Err(TableFault::Initial);
    }
    Ok(Counted { table: *table })
}

// Starts begin at 0, never fall, and end at the number of transitions.
fn start_wrong(table: &Table, i: u32) -> bool
    ensures { result ≡ start_wrong table.now.bytes.now i }
{
    let start = table.start(i);
    (i == 0 && start != 0)
        || (i > 0 && start < table.start(i - 1))
        || (i == table.states() && start != table.transitions())
}

impl<'a> Counted<'a> {
    fn check_start(&self, i: u32) -> Result<(), TableFault>
        requires { i ≤ states self.now.table.bytes.now }
        ensures { Passes (start_fault self.now.table.bytes.now i) result }
    {
        check_field(&self.table, 12 + 4 * i, 4)?;
        if start_wrong(&self.table, i) {
            Err(TableFault::Start { index: i as u16 })
        } else {
            Ok(())
        }
    }

    // One start more than there are states.
    fn check_starts(&self) -> Result<(), TableFault>
        ensures { Passes (earliest (states self.now.table.bytes.now + 1) (start_fault self.now.table.bytes.now)) result }
    {
        check_each(self.table.states() + 1, |i| self.check_start(i))
    }

    // Only the length of a transition is checked.
    fn check_transition(&self, k: u32) -> Result<(), TableFault>
        requires { k < transitions self.now.table.bytes.now }
        ensures { Passes (transition_fault self.now.table.bytes.now k) result }
    {
        let at = (self.table.transitions_at() + 14 * k as usize) as u32;
        check_field(&self.table, at, 2)?;
        check_field(&self.table, at + 2, 4)?;
        check_field(&self.table, at + 6, 8)
    }

    fn check_transitions(&self) -> Result<(), TableFault>
        ensures { Passes (earliest (transitions self.now.table.bytes.now) (transition_fault self.now.table.bytes.now)) result }
    {
        check_each(self.table.transitions(), |k| self.check_transition(k))
    }

    // Nothing stands behind the table.
    pub(crate) fn check_end(&self) -> Result<(), TableFault>
        ensures { Passes (excess_fault self.now.table.bytes.now) result }
    {
        let size = self.table.size();
        if size < self.table.reach() {
            Err(TableFault::Excess { byte: size as u32 })
        } else {
            Ok(())
        }
    }
}

// Everything but what stands behind the table.
pub(crate) fn check_table(table: &Table) -> Result<(), TableFault>
    ensures { Passes (table_fault table.now.bytes.now) result }
{
    let counted = check_counts(table)?;
    counted.check_starts()?;
    counted.check_transitions()
}
