// Worked runs of the rules, and tests of the calls.
#![tactic(auto)]

ghost use Rattle.samples.specs.Samples.{Samples};

// Every run of the table shows what it must.
pub fn samples_hold()
    ensures { Samples }
{}

#[cfg(test)]
mod tests;
