// Says of each case file in its folder whether it is accepted, or why not.
#![tactic(auto)]

use account::outcome;
use std::{fs, io};

const NAMES: [&str; 29] = [
    "refused_01_1",
    "refused_01_2",
    "refused_01_3",
    "refused_02_1",
    "refused_02_2",
    "refused_02_3",
    "refused_03_1",
    "refused_03_2",
    "refused_03_3",
    "refused_04_1",
    "refused_04_2",
    "refused_04_3",
    "refused_05_1",
    "refused_05_2",
    "refused_05_3",
    "refused_06_1",
    "refused_06_2",
    "refused_06_3",
    "refused_07_1",
    "refused_07_2",
    "refused_07_3",
    "refused_08_1",
    "refused_08_2",
    "refused_08_3",
    "refused_11_1",
    "session",
    "scheduler_2_cycles",
    "variants_1",
    "variants_2",
];

fn main(rt: HostRuntime) -> io::Result<()> {
    for name in NAMES {
        let path = format!(in rt.alloc(); "{name}.case")?;
        let bytes = fs::read(&rt, path.as_str())?;
        let line = outcome(rt.alloc(), bytes.as_slice())?;
        print!(rt; "{name}: {line}")?;
    }
    Ok(())
}
