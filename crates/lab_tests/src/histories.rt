use lab_app_rules::{Amount, Balance, Effect, Event, Load, Named, On, Rules, SignedSum};
use lab_history::{Course, Deed, Extent, Happening, Standing, apply, is_durable};
use model_device::NoMemory;
use std::alloc::{AllocError, Global};
use std::test::Fail;

// An `on turn` line.
fn on_turn(alloc: Global, effect: Effect) -> On {
    On {
        line: 1,
        event: Event::Turn,
        pattern: Vec::new(alloc),
        result: Vec::new(alloc),
        effect,
        name: 0,
    }
}

// The rules of an allowance of 2, of which a turn spends 1; and of a sum of 3, to which a turn adds, and which the first two
// static bytes are.
fn rules_of_two(alloc: Global) -> Result<Rules<'static>, AllocError> {
    let mut rules = Rules {
        load: Load {
            code: &[],
            data: &[],
            fixed: 2,
            session: 0,
        },
        code_lines: Vec::new(alloc),
        allowances: Vec::new(alloc),
        sums: Vec::new(alloc),
        ons: Vec::new(alloc),
        always: Vec::new(alloc),
        balances: Vec::new(alloc),
        never: None,
    };
    rules.allowances.push(Named {
        name: b"guesses",
        amount: 2,
    })?;
    rules.sums.push(Named {
        name: b"debits",
        amount: 3,
    })?;
    rules.ons.push(on_turn(alloc, Effect::Spend(1)))?;
    rules
        .ons
        .push(on_turn(alloc, Effect::Add(Amount::Number(5))))?;
    let mut sums = Vec::new(alloc);
    sums.push(SignedSum {
        minus: false,
        sum: 0,
    })?;
    rules.balances.push(Balance {
        line: 4,
        at: 0,
        n: 2,
        constant: 0,
        sums,
    })?;
    Ok(rules)
}

// A line without a command and an answer, in which these deeds happen, one an instruction.
fn course_of(alloc: Global, deeds: Vec<Deed>) -> Result<Course, AllocError> {
    let mut happenings = Vec::new(alloc);
    let mut turn: u64 = 0;
    for deed in deeds {
        happenings.push(Happening { turn, deed })?;
        turn = turn.saturating_add(1);
    }
    Ok(Course {
        command: Vec::new(alloc),
        deeds: happenings,
        answer: Vec::new(alloc),
        was_selected: false,
        has_session: false,
    })
}

// Three turns spend 1 each of an allowance of 2.
#[test]
fn third_of_two_is_broken(rt: HostRuntime) -> Result<(), Fail> {
    let rules = rules_of_two(rt.alloc())?;
    let mut standing = Standing::first(rt.alloc(), &rules)?;
    let mut times = [0, 0];
    let deeds = Vec::from_array(rt.alloc(), [Deed::On(0), Deed::On(0), Deed::On(0)])?;
    let course = course_of(rt.alloc(), deeds)?;
    let two = Extent::Stopped {
        turns: 2,
        durable: false,
    };
    assert!(rt; apply(&rules, &mut standing, &mut times, &course, two).is_none());
    assert_eq!(rt; standing.amounts.as_slice(), [0].as_slice());
    let mut standing = Standing::first(rt.alloc(), &rules)?;
    assert!(rt; apply(&rules, &mut standing, &mut times, &course, Extent::Whole).is_some());
    Ok(())
}

// What is counted after a stop at the second instruction of a line, whose write is durable or not.
fn stopped(
    alloc: Global,
    rules: &Rules<'_>,
    course: &Course,
    durable: bool,
) -> Result<Standing, NoMemory> {
    let mut standing = Standing::first(alloc, rules)?;
    let mut times = [0, 0];
    let _broken = apply(
        rules,
        &mut standing,
        &mut times,
        course,
        Extent::Stopped { turns: 1, durable },
    );
    Ok(standing)
}

// A turn adds to a sum, and the next keeps it: a stop at the second keeps the sum exactly if its write is durable.
#[test]
fn waiting_sum_is_kept_with_its_commit(rt: HostRuntime) -> Result<(), Fail> {
    let rules = rules_of_two(rt.alloc())?;
    let number = Vec::from_array(rt.alloc(), [5])?;
    let deeds = Vec::from_array(rt.alloc(), [Deed::Sum(1, number), Deed::Keep])?;
    let course = course_of(rt.alloc(), deeds)?;
    let torn = stopped(rt.alloc(), &rules, &course, false)?;
    assert_eq!(rt; torn.waiting.as_slice(), [0, 8].as_slice());
    assert_eq!(rt; torn.kept.as_slice(), [0, 3].as_slice());
    let whole = stopped(rt.alloc(), &rules, &course, true)?;
    assert_eq!(rt; whole.kept.as_slice(), [0, 8].as_slice());
    Ok(())
}

// An atomic write of one word is six device writes, of which the fourth opens the journal.
#[test]
fn fourth_device_write_makes_one_word_durable(rt: HostRuntime) -> Result<(), Fail> {
    let turns = [7, 7, 7, 7, 7, 7];
    assert!(rt; !is_durable(&turns, 2, true));
    assert!(rt; !is_durable(&turns, 3, false));
    assert!(rt; is_durable(&turns, 3, true));
    assert!(rt; is_durable(&turns, 4, false));
    Ok(())
}
