use crate::{AnyPicker, Chance, Picker, Script, Turns, answers_by_offers, words_by_offers};
use epoch_freeze::Twins;
use lg_model::Pick;
use row_hash::{Hash, Shape};
use std::alloc::Global;
use std::process::Abort;
use std::test::Fail;

// Twins of one row whose first epoch has ended.
fn ended_twins<R: Abort>(rt: &R, alloc: Global, width: u16) -> Result<Twins, Fail> {
    let shape = Shape::new(1, width, Hash::Ports).expect(rt, "a shape");
    let mut twins = Twins::new(alloc, &shape)?;
    twins.end();
    Ok(twins)
}

// Asks a picker, and puts out the column that it gives.
fn offer<R: Abort, P: Picker>(
    rt: &R,
    picker: &mut P,
    hops_left: u8,
    twins: &mut Twins,
) -> Option<u16> {
    assert!(rt; (1..=16).contains(&hops_left));
    assert!(rt; twins.epoch() > 0 && twins.put_count() < 100);
    let index = picker.pick(hops_left, twins)?;
    twins.put_out(index);
    Some(index)
}

// The hops left and the index that is given, worked out by hand.
const TURNS: [(u8, Option<u16>); 9] = [
    (3, Some(0)),
    (1, Some(1)),
    (2, Some(2)),
    (2, None),
    (2, Some(0)),
    (3, None),
    (3, Some(1)),
    (16, None),
    (1, Some(2)),
];

// The answers to offers with these hops left, at 4,096 indexes, from a ChaCha8 in another language.
const HOPS: [u8; 12] = [3, 2, 1, 3, 2, 1, 3, 2, 1, 3, 2, 1];

const SEED_7_SWITCH_1: [Option<u16>; 12] = [
    None,
    Some(739),
    Some(37),
    Some(841),
    None,
    Some(2292),
    None,
    Some(2049),
    Some(549),
    None,
    Some(122),
    Some(3316),
];

#[test]
fn picks_by_turns(rt: HostRuntime) -> Result<(), Fail> {
    let mut twins = ended_twins(&rt, rt.alloc(), 3)?;
    let mut turns = Turns::new();
    for (hops_left, want) in TURNS {
        assert_eq!(rt; offer(&rt, &mut turns, hops_left, &mut twins), want);
    }

    // The count of offers goes on after the end of an epoch, and the columns begin anew.
    assert!(rt; twins.epoch() < 2);
    twins.end();
    for (hops_left, want) in [(2, None), (5, Some(0)), (1, Some(1))] {
        assert_eq!(rt; offer(&rt, &mut turns, hops_left, &mut twins), want);
    }
    answers_by_offers();
    Ok(())
}

#[test]
fn picks_by_chance(rt: HostRuntime) -> Result<(), Fail> {
    let mut twins = ended_twins(&rt, rt.alloc(), 4096)?;
    let mut chance = Chance::new(7, 1);
    for (hops_left, want) in HOPS.into_iter().zip(SEED_7_SWITCH_1) {
        assert_eq!(rt; offer(&rt, &mut chance, hops_left, &mut twins), want);
    }
    words_by_offers();
    Ok(())
}

// With two indexes there are ties, and second candidates that were put out less often.
#[test]
fn chance_prefers_the_less_used(rt: HostRuntime) -> Result<(), Fail> {
    for (seed, switch, wants) in [
        (0, 0, [1, 0, 1, 1, 0, 0, 1, 0]),
        (7, 1, [0, 1, 1, 1, 0, 0, 0, 1]),
        (u64::MAX, 65535, [0, 0, 0, 1, 0, 1, 1, 1]),
    ] {
        let mut twins = ended_twins(&rt, rt.alloc(), 2)?;
        let mut chance = Chance::new(seed, switch);
        for want in wants {
            let got = offer(&rt, &mut chance, 1, &mut twins);
            assert_eq!(rt; got, Some(want), "seed {seed}");
        }
    }
    Ok(())
}

#[test]
fn a_script_is_kept_within_the_law(rt: HostRuntime) -> Result<(), Fail> {
    let mut twins = ended_twins(&rt, rt.alloc(), 2)?;
    let answers = [Some(1), Some(2), None, None, Some(65535), Some(0)].to_vec(rt.alloc())?;
    let mut script = Script::new(answers);
    for (hops_left, want) in [
        (1, Some(1)),
        (1, Some(0)),
        (2, None),
        (1, Some(0)),
        (4, Some(0)),
        (16, Some(0)),
        (16, Some(0)),
    ] {
        assert_eq!(rt; offer(&rt, &mut script, hops_left, &mut twins), want);
    }
    Ok(())
}

#[test]
fn picks_as_a_scenario_says(rt: HostRuntime) -> Result<(), Fail> {
    let mut twins = ended_twins(&rt, rt.alloc(), 3)?;
    let mut picker = AnyPicker::new(Pick::Turns, 1);
    for (hops_left, want) in TURNS {
        assert_eq!(rt; offer(&rt, &mut picker, hops_left, &mut twins), want);
    }

    let mut twins = ended_twins(&rt, rt.alloc(), 4096)?;
    let mut picker = AnyPicker::new(Pick::Chance(7), 1);
    for (hops_left, want) in HOPS.into_iter().zip(SEED_7_SWITCH_1) {
        assert_eq!(rt; offer(&rt, &mut picker, hops_left, &mut twins), want);
    }
    Ok(())
}
