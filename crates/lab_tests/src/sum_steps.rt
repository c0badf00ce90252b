// A table of sums beside tables without keys: what is left is what the totals are as the application is created.
use lab_app_rules::{Balance, Load, Named, Rules, SignedSum};
use model_device::NoMemory;
use prove_facts::push;
use prove_keys::Tables;
use prove_sum_steps::sums_are_closed;
use std::alloc::Global;
use std::test::Fail;

// A list of one element.
fn one<T: Drop>(alloc: Global, element: T) -> Result<Vec<T>, NoMemory> {
    let mut list = Vec::new(alloc);
    push(&mut list, element)?;
    Ok(list)
}

// The rules of a sum, which the two static bytes are.
fn rules_of(alloc: Global, amount: u32) -> Result<Rules<'static>, NoMemory> {
    let term = SignedSum {
        minus: false,
        sum: 0,
    };
    let balance = Balance {
        line: 1,
        at: 0,
        n: 2,
        constant: 1,
        sums: one(alloc, term)?,
    };
    Ok(Rules {
        load: Load {
            code: &[],
            data: &[1, 3],
            fixed: 2,
            session: 0,
        },
        code_lines: Vec::new(alloc),
        allowances: Vec::new(alloc),
        sums: one(alloc, Named { name: b"s", amount })?,
        ons: Vec::new(alloc),
        always: Vec::new(alloc),
        balances: one(alloc, balance)?,
        never: None,
    })
}

// Whether a table without places is closed, by the amount of the sum as the application is created.
fn is_closed(alloc: Global, amount: u32) -> Result<bool, NoMemory> {
    let rules = rules_of(alloc, amount)?;
    let tables = Tables::new(alloc);
    sums_are_closed(alloc, &rules, &tables, &[], &[], &[], &[])
}

#[test]
fn totals_hold_as_the_application_is_created(rt: HostRuntime) -> Result<(), Fail> {
    let holds = is_closed(rt.alloc(), 258)?;
    assert!(rt; holds);
    let holds = is_closed(rt.alloc(), 257)?;
    assert!(rt; !holds);
    Ok(())
}
