// What the program prints, each line by one write. They print to what is lent: a type with a `Display` for each would hold the parameters that
// the function has.
use replay_list::{Differences, Tally};
use std::io;

// One line for each part of a frame that differs.
pub fn differing(rt: &impl Print, number: u64, differences: Differences) -> io::Result<()> {
    for (name, differs) in differences.named() {
        if differs {
            println!(rt; "frame {number} differs in {name}")?;
        }
    }
    Ok(())
}

pub fn totals(rt: &impl Print, tally: &Tally) -> io::Result<()> {
    println!(rt; "frames: {}", tally.frames)?;
    println!(rt; "accepted: {}", tally.answers[0])?;
    // the refusals' numbers, `McError::number` of each: an array of errors would need a group and a code for the second
    for number in [1, 2, 3, 4, 5, 6, 7, 8, 13, 14] {
        println!(rt; "refusal {number}: {}", tally.answers[number])?;
    }
    println!(rt; "values in the hashes: {}", tally.values)?;
    if tally.different == 0 {
        println!(rt; "no difference")
    } else {
        println!(rt; "frames with a difference: {}", tally.different)
    }
}
