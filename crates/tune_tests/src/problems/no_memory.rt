//! Calls that take no memory: inputs are made and looked at, fights have points, and settings are
//! compared.
use crate::fixtures::{
    IMP_FILE, ONE_IMP, THREE_UNEQUAL, TWO_FIGHTS, ask, inputs_of, small_rules, two_opponents,
    use_up,
};
use mars_core::{Arena, PackedCells};
use mars_fight::Schedule;
use rc_instr::read_loadfile;
use std::test::Fail;
use tune_problem::{
    Best, Inputs, Part, beats, cert_version, fight_count, fight_points, fight_weight,
    greatest_total,
};
use tune_template::Template;

#[test]
fn inputs_are_made(rt: HostRuntime) -> Result<(), Fail> {
    let rules = small_rules()?;
    let template = Template::read(rt.alloc(), ONE_IMP)?;
    let opponents = two_opponents(rt.alloc(), &rules)?;
    let schedule = Schedule::read(rt.alloc(), TWO_FIGHTS, 2, &rules)?;
    use_up(rt.alloc())?;
    assert_eq!(rt;
        Inputs::new(template, opponents, schedule, rules).count(),
        1
    );
    ask(rt.alloc())
}

// Returns the index of a part's first setting in the template, and how many values it has.
fn first_of(inputs: &Inputs) -> (u32, usize) {
    prove!(0 < inputs.count());
    (
        inputs.index_in_template(0),
        inputs.vector(0).as_slice().len(),
    )
}

// The second of two parts of three settings has settings 1 and 2.
#[test]
fn inputs_are_looked_at(rt: HostRuntime) -> Result<(), Fail> {
    let inputs = inputs_of(rt.alloc(), THREE_UNEQUAL)?;
    use_up(rt.alloc())?;
    assert_eq!(rt; inputs.rules(), &small_rules()?);
    assert_eq!(rt;
        (inputs.template().count(), inputs.opponents().len()),
        (3, 2)
    );
    assert_eq!(rt; inputs.schedule().fights().len(), 2);
    assert_eq!(rt; (fight_count(&inputs), fight_weight(&inputs, 1)), (2, 1));
    assert_eq!(rt; (greatest_total(&inputs), cert_version(&inputs)), (6, 1));
    assert_eq!(rt; (Part::whole().number, Part::whole().parts), (1, 1));
    let part = Part {
        number: 2,
        parts: 2,
    };
    assert_eq!(rt; (part.first(3), part.end(3)), (1, 3));
    let inputs = inputs.part(part).ok_or("no such part")?;
    assert_eq!(rt; (inputs.count(), inputs.start_number()), (2, 0));
    assert_eq!(rt; first_of(&inputs), (1, 1));
    ask(rt.alloc())
}

#[test]
fn fights_have_points(rt: HostRuntime) -> Result<(), Fail> {
    let inputs = inputs_of(rt.alloc(), THREE_UNEQUAL)?;
    let warrior = read_loadfile(rt.alloc(), IMP_FILE, inputs.rules())?;
    let mut arena = Arena::<PackedCells>::try_new(rt.alloc(), inputs.rules())?;
    prove!(0 < inputs.schedule().fights().len());
    use_up(rt.alloc())?;
    assert_eq!(rt; fight_points(&mut arena, &inputs, &warrior, 0), 3);
    ask(rt.alloc())
}

#[test]
fn a_tie_beats_by_the_smaller_index(rt: HostRuntime) -> Result<(), Fail> {
    use_up(rt.alloc())?;
    let best = Best {
        vector: 2,
        total: 5,
    };
    assert!(rt; beats(6, 3, best) && beats(5, 1, best));
    assert!(rt; !beats(5, 2, best) && !beats(5, 3, best) && !beats(4, 1, best));
    ask(rt.alloc())
}
