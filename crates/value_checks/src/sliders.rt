// Sliders. What is wanted follows from marimo's documentation, "Inputs", and from what Python says of arguments.
use py_value::{Element, Kind, Memory, OpFault, Text, Value, Values};
use std::alloc::Global;
use std::test::Fail;
use ui_elements::{AdmitFault, Args, Word, Words, admit, make, shown};

// A value of a test.
#[derive(Clone, Copy)]
enum Sample {
    None,
    True,
    Int(i128),
    Text(&'static str),
}

// An argument of a test, by place or by name.
#[derive(Clone, Copy)]
enum Given {
    At(Sample),
    By(&'static str, Sample),
}

use Given::{At, By};
use Sample::{Int, True};

fn text(alloc: Global, of: &str) -> Result<Text, Memory> {
    Text::copied(alloc, of)
}

fn value(alloc: Global, sample: Sample) -> Result<Value, Memory> {
    match sample {
        Sample::None => Ok(Value::None),
        Sample::True => Ok(Value::Bool(true)),
        Sample::Int(n) => Ok(Value::Int(n)),
        Sample::Text(of) => Ok(Value::Text(text(alloc, of)?)),
    }
}

fn arguments(alloc: Global, given: &[Given]) -> Result<Args, Memory> {
    let mut places = Vec::new(alloc);
    let mut words = Vec::new(alloc);
    for argument in given {
        match argument {
            At(sample) => places.push(value(alloc, *sample)?)?,
            By(name, sample) => words.push(word(alloc, name, *sample)?)?,
        }
    }
    Ok(Args {
        places: Values::of(places),
        words: Words::of(words),
    })
}

fn word(alloc: Global, name: &str, sample: Sample) -> Result<Word, Memory> {
    Ok(Word {
        name: text(alloc, name)?,
        value: value(alloc, sample)?,
    })
}

// What a call of the kind makes, of the name `s`.
fn called(alloc: Global, kind: Kind, given: &[Given]) -> Result<Element, OpFault> {
    let args = arguments(alloc, given)?;
    make(alloc, kind, &text(alloc, "s")?, &args)
}

fn slider(alloc: Global, given: &[Given]) -> Result<Element, OpFault> {
    called(alloc, Kind::Slider, given)
}

fn slider_text(alloc: Global, given: &[Given]) -> Result<Text, OpFault> {
    let element = slider(alloc, given)?;
    Ok(shown(alloc, &element)?)
}

#[test]
fn makes_sliders(rt: HostRuntime) -> Result<(), Fail> {
    let (zero, ten) = (At(Int(0)), At(Int(10)));
    let (least, most) = (At(Int(i128::MIN)), At(Int(i128::MAX)));
    let cases: [(&[Given], &str); 8] = [
        (
            &[zero, ten],
            "<slider s start=0 stop=10 step=1 value=0 label=''>",
        ),
        (
            &[zero, ten, At(Int(5))],
            "<slider s start=0 stop=10 step=5 value=0 label=''>",
        ),
        (
            &[zero, ten, By("value", Int(3))],
            "<slider s start=0 stop=10 step=1 value=3 label=''>",
        ),
        (
            &[At(Int(1)), At(Int(5)), By("label", Sample::Text("n"))],
            "<slider s start=1 stop=5 step=1 value=1 label='n'>",
        ),
        (
            &[By("stop", Int(9)), By("start", Int(-9))],
            "<slider s start=-9 stop=9 step=1 value=-9 label=''>",
        ),
        (
            &[At(Int(3)), At(Int(3))],
            "<slider s start=3 stop=3 step=1 value=3 label=''>",
        ),
        (
            &[
                zero,
                At(Int(9)),
                At(Int(2)),
                At(Int(8)),
                At(Sample::Text("it's")),
            ],
            "<slider s start=0 stop=9 step=2 value=8 label=\"it's\">",
        ),
        (
            &[least, most, most, At(Int(-1))],
            "<slider s start=-170141183460469231731687303715884105728 stop=170141183460469231731687303715884105727 step=170141183460469231731687303715884105727 value=-1 label=''>",
        ),
    ];
    for (given, wanted) in cases {
        assert_eq!(rt; slider_text(rt.alloc(), given)?.items(), wanted);
    }
    Ok(())
}

#[test]
fn refuses_calls(rt: HostRuntime) -> Result<(), Fail> {
    let alloc = rt.alloc();
    let (zero, ten, empty) = (At(Int(0)), At(Int(10)), At(Sample::Text("")));
    let cases: [(&[Given], OpFault); 17] = [
        (&[ten, zero], OpFault::Value),
        (&[zero, ten, zero], OpFault::Value),
        (&[zero, ten, At(Int(-1))], OpFault::Value),
        (&[zero, ten, At(Int(5)), At(Int(7))], OpFault::Value),
        (&[zero, ten, By("value", Int(11))], OpFault::Value),
        (&[], OpFault::WrongType),
        (&[zero], OpFault::WrongType),
        (&[By("stop", Int(1))], OpFault::WrongType),
        (&[At(True), ten], OpFault::WrongType),
        (&[zero, ten, ten, zero, empty, zero], OpFault::WrongType),
        (
            &[zero, By("stop", Int(1)), By("stop", Int(1))],
            OpFault::WrongType,
        ),
        (&[zero, ten, By("steps", Int(1))], OpFault::WrongType),
        (&[zero, ten, By("start", Int(0))], OpFault::WrongType),
        (&[zero, ten, By("value", Sample::None)], OpFault::WrongType),
        (&[zero, ten, By("label", Int(1))], OpFault::WrongType),
        // a wrong type comes before a wrong value
        (&[ten, zero, By("label", Int(1))], OpFault::WrongType),
        (&[ten, zero, By("name", Int(1))], OpFault::WrongType),
    ];
    for (given, wanted) in cases {
        let got = slider(alloc, given).err().ok_or("made")?;
        assert_eq!(rt; got, wanted);
    }
    // other kinds are outside
    let got = called(alloc, Kind::Number, &[zero, ten]);
    assert_eq!(rt; got.err().ok_or("made")?, OpFault::Subset);
    Ok(())
}

// The number that the slider's value becomes.
fn set(alloc: Global, given: &[Given], to: Sample) -> Result<Option<i128>, OpFault> {
    let element = slider(alloc, given)?;
    match admit(alloc, &element, &value(alloc, to)?) {
        Ok(Value::Int(n)) => Ok(Some(n)),
        Ok(_) => Err(OpFault::WrongType),
        Err(AdmitFault::NotAllowed) => Ok(None),
        Err(AdmitFault::Memory) => Err(OpFault::Memory),
    }
}

#[test]
fn sliders_admit(rt: HostRuntime) -> Result<(), Fail> {
    let alloc = rt.alloc();
    let whole = [At(Int(i128::MIN)), At(Int(i128::MAX))];
    let thirds = [At(Int(i128::MIN)), At(Int(i128::MAX)), At(Int(3))];
    let to_ten = [At(Int(0)), At(Int(10))];
    let by_fives = [At(Int(0)), At(Int(10)), At(Int(5))];
    let from_below = [At(Int(-3)), At(Int(10)), At(Int(5))];
    let cases: [(&[Given], Sample, Option<i128>); 18] = [
        (&to_ten, Int(0), Some(0)),
        (&to_ten, Int(7), Some(7)),
        (&to_ten, Int(10), Some(10)),
        (&to_ten, Int(11), None),
        (&to_ten, Int(-1), None),
        (&to_ten, True, None),
        (&to_ten, Sample::None, None),
        (&to_ten, Sample::Text("1"), None),
        (&by_fives, Int(10), Some(10)),
        (&by_fives, Int(15), None),
        (&by_fives, Int(7), None),
        (&from_below, Int(2), Some(2)),
        (&from_below, Int(0), None),
        (&whole, Int(i128::MIN), Some(i128::MIN)),
        (&whole, Int(i128::MAX), Some(i128::MAX)),
        // from the least to the greatest number are 2^128 - 1, which 3 divides
        (&thirds, Int(i128::MAX), Some(i128::MAX)),
        (&thirds, Int(i128::MAX - 1), None),
        (&thirds, Int(0), None),
    ];
    for (given, to, wanted) in cases {
        assert_eq!(rt; set(alloc, given, to)?, wanted);
    }
    Ok(())
}
