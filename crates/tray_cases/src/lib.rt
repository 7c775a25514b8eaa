// Tests of a tray's calls over array shelves of both fields.
#![tactic(auto)]

#[cfg(test)]
mod tests;
