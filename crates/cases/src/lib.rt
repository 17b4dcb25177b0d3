// What the library answers on worked and damaged texts.
#![tactic(auto)]

#[cfg(test)]
mod tests;
