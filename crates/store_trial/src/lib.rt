//! Every store is put to one trial.
#![tactic(auto)]

ghost use Rattle.std.specs.Prelude.{◌≤◌};

#[cfg(test)]
mod trial;

#[cfg(test)]
mod rows_tests {
    use crate::trial::try_store;
    use std::process::Abort;
    use stores::{Row, Rows};

    /// A new store over a table of so many rows.
    fn try_rows<const SIZE: usize>(rt: &impl Abort)
        requires { SIZE ≤ 1024 }
    {
        let mut table: [Row; SIZE] = [None; SIZE];
        assert!(rt; Rows::check(&table).is_ok());
        let mut rows = Rows::new(&mut table);
        try_store(rt, &mut rows, SIZE);
    }

    #[test]
    fn a_table_of_one_row(rt: HostRuntime) {
        try_rows::<1>(&rt);
    }

    #[test]
    fn a_table_of_seven_rows(rt: HostRuntime) {
        try_rows::<7>(&rt);
    }

    #[test]
    fn the_largest_table(rt: HostRuntime) {
        try_rows::<1_024>(&rt);
    }
}

#[cfg(test)]
mod chains_tests {
    use crate::trial::try_store;
    use chains::{Chains, FREE_ROW};
    use std::process::Abort;

    /// A new store over a table of so many rows.
    // A second function: one for both would need a trait for a table's blank row, `check` and `new`, longer than what it saves.
    fn try_chains<const SIZE: usize>(rt: &impl Abort)
        requires { SIZE ≤ 1024 }
    {
        let mut table = [FREE_ROW; SIZE];
        assert!(rt; Chains::check(&table).is_ok());
        let mut chains = Chains::new(&mut table);
        try_store(rt, &mut chains, SIZE);
    }

    #[test]
    fn a_table_of_one_row(rt: HostRuntime) {
        try_chains::<1>(&rt);
    }

    #[test]
    fn a_table_of_seven_rows(rt: HostRuntime) {
        try_chains::<7>(&rt);
    }

    #[test]
    fn the_largest_table(rt: HostRuntime) {
        try_chains::<1_024>(&rt);
    }
}
