// Small machines, taken through lists of calls: what each call answers.
#![tactic(auto)]

#[cfg(test)]
mod machines;
#[cfg(test)]
mod tests;
