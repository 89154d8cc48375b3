// Samples of values, and what the calls answer for them where memory is ample.
use crate::value_texts::texts;
use py_value::{
    Element, Kind, Memory, NameMap, OpFault, Pairs, RawBytes, Text, Value, Values, add, copy, same,
    size,
};
use std::alloc::Global;
use std::test::Fail;

#[derive(Clone, Copy, Debug, PartialEq, Eq)]
enum Sample {
    None,
    True,
    False,
    Zero,
    One,
    // 2^127 - 1
    Most,
    // 'a'
    TextA,
    // 'b'
    TextB,
    // a text of 15 bytes
    Text15,
    // a text of 16 bytes
    Text16,
    // HTML of 16 bytes
    Html16,
    // []
    NoList,
    // [1, 2]
    List,
    // ()
    NoTuple,
    // (1, 2)
    Tuple,
    // (True, 2)
    TrueTuple,
    // ([1, 2], element)
    ListFirst,
    // (element, [1, 2])
    ElementFirst,
    // {}
    NoDict,
    // {1: 'a'}
    Dict,
    Slider,
    Moved,
}

// No two of these are the same.
const DISTINCT: [Sample; 16] = [
    Sample::None,
    Sample::True,
    Sample::False,
    Sample::Zero,
    Sample::One,
    Sample::TextA,
    Sample::Text16,
    Sample::Html16,
    Sample::NoList,
    Sample::NoTuple,
    Sample::Tuple,
    Sample::TrueTuple,
    Sample::NoDict,
    Sample::Dict,
    Sample::Slider,
    Sample::Moved,
];

fn text(alloc: Global, s: &str) -> Result<Text, Memory> {
    Text::copied(alloc, s)
}

fn two(alloc: Global, first: Value, second: Value) -> Result<Values, Memory> {
    let mut items = Vec::new(alloc);
    items.push(first)?;
    items.push(second)?;
    Ok(Values::of(items))
}

fn one_two(alloc: Global) -> Result<Values, Memory> {
    two(alloc, Value::Int(1), Value::Int(2))
}

fn dict(alloc: Global, key: Value, item: Value) -> Result<Pairs, OpFault> {
    let mut pairs = Pairs::new(alloc);
    pairs.put(alloc, key, item)?;
    Ok(pairs)
}

fn one_a(alloc: Global) -> Result<Pairs, OpFault> {
    dict(alloc, Value::Int(1), Value::Text(text(alloc, "a")?))
}

fn slider(alloc: Global, present: i128) -> Result<Element, OpFault> {
    let start = Value::Text(text(alloc, "start")?);
    let params = dict(alloc, start, Value::Int(0))?;
    let name = text(alloc, "s")?;
    let initial = Value::Int(0);
    let present = Value::Int(present);
    Ok(Element::new(alloc, Kind::Slider, name, params, initial, present)?)
}

// A list, and an element after it or before it.
fn mixed(alloc: Global, list_first: bool) -> Result<Value, OpFault> {
    let list = Value::List(one_two(alloc)?);
    let element = Value::Element(slider(alloc, 0)?);
    if list_first {
        Ok(Value::Tuple(two(alloc, list, element)?))
    } else {
        Ok(Value::Tuple(two(alloc, element, list)?))
    }
}

fn value(alloc: Global, sample: Sample) -> Result<Value, OpFault> {
    match sample {
        Sample::None => Ok(Value::None),
        Sample::True => Ok(Value::Bool(true)),
        Sample::False => Ok(Value::Bool(false)),
        Sample::Zero => Ok(Value::Int(0)),
        Sample::One => Ok(Value::Int(1)),
        Sample::Most => Ok(Value::Int(i128::MAX)),
        Sample::TextA => Ok(Value::Text(text(alloc, "a")?)),
        Sample::TextB => Ok(Value::Text(text(alloc, "b")?)),
        Sample::Text15 => Ok(Value::Text(text(alloc, "fifteen letters")?)),
        Sample::Text16 => Ok(Value::Text(text(alloc, "sixteen letters!")?)),
        Sample::Html16 => Ok(Value::Html(text(alloc, "sixteen letters!")?)),
        Sample::NoList => Ok(Value::List(Values::of(Vec::new(alloc)))),
        Sample::List => Ok(Value::List(one_two(alloc)?)),
        Sample::NoTuple => Ok(Value::Tuple(Values::of(Vec::new(alloc)))),
        Sample::Tuple => Ok(Value::Tuple(one_two(alloc)?)),
        Sample::TrueTuple => Ok(Value::Tuple(two(alloc, Value::Bool(true), Value::Int(2))?)),
        Sample::ListFirst => mixed(alloc, true),
        Sample::ElementFirst => mixed(alloc, false),
        Sample::NoDict => Ok(Value::Dict(Pairs::new(alloc))),
        Sample::Dict => Ok(Value::Dict(one_a(alloc)?)),
        Sample::Slider => Ok(Value::Element(slider(alloc, 0)?)),
        Sample::Moved => Ok(Value::Element(slider(alloc, 1)?)),
    }
}

fn both(alloc: Global, left: Sample, right: Sample) -> Result<Values, OpFault> {
    let left = value(alloc, left)?;
    let right = value(alloc, right)?;
    Ok(two(alloc, left, right)?)
}

// Whether two values, each made of its own, are the same.
fn alike(alloc: Global, left: Sample, right: Sample) -> Result<bool, OpFault> {
    let samples = both(alloc, left, right)?;
    let [left, right] = samples.items() else {
        return Err(OpFault::Index);
    };
    Ok(same(left, right))
}

#[test]
fn same_are_those_of_one_sample(rt: HostRuntime) -> Result<(), Fail> {
    for left in DISTINCT {
        for right in DISTINCT {
            let alike = alike(rt.alloc(), left, right)?;
            assert_eq!(rt; alike, left == right, "{left:?} and {right:?}");
        }
    }
    Ok(())
}

// Whether a dictionary with one key has the other.
fn finds(alloc: Global, put: Sample, sought: Sample) -> Result<bool, OpFault> {
    let samples = both(alloc, put, sought)?;
    let [put, sought] = samples.items() else {
        return Err(OpFault::Index);
    };
    let pairs = dict(alloc, copy(alloc, put)?, Value::None)?;
    Ok(pairs.look_up(alloc, sought)?.is_some())
}

fn put_all(alloc: Global, rows: &[(Sample, Sample)]) -> Result<Value, OpFault> {
    let mut pairs = Pairs::new(alloc);
    for row in rows {
        pairs.put(alloc, value(alloc, row.0)?, value(alloc, row.1)?)?;
    }
    Ok(Value::Dict(pairs))
}

#[test]
fn puts_and_finds_keys(rt: HostRuntime) -> Result<(), Fail> {
    let table = [
        (Sample::None, Sample::None, Ok(true)),
        (Sample::One, Sample::True, Ok(true)),
        (Sample::False, Sample::Zero, Ok(true)),
        (Sample::One, Sample::Zero, Ok(false)),
        (Sample::TextA, Sample::TextA, Ok(true)),
        (Sample::TextA, Sample::TextB, Ok(false)),
        (Sample::Zero, Sample::None, Ok(false)),
        (Sample::One, Sample::TextA, Ok(false)),
        (Sample::Tuple, Sample::TrueTuple, Ok(true)),
        (Sample::Tuple, Sample::NoTuple, Ok(false)),
        (Sample::One, Sample::Tuple, Ok(false)),
        // what can't be a key is neither put nor sought
        (Sample::List, Sample::None, Err(OpFault::WrongType)),
        (Sample::None, Sample::List, Err(OpFault::WrongType)),
        (Sample::Dict, Sample::None, Err(OpFault::WrongType)),
        (Sample::None, Sample::Dict, Err(OpFault::WrongType)),
        (Sample::Slider, Sample::None, Err(OpFault::Subset)),
        (Sample::None, Sample::Slider, Err(OpFault::Subset)),
        (Sample::Html16, Sample::None, Err(OpFault::Subset)),
        (Sample::None, Sample::Html16, Err(OpFault::Subset)),
        (Sample::ListFirst, Sample::None, Err(OpFault::WrongType)),
        (Sample::None, Sample::ListFirst, Err(OpFault::WrongType)),
        (Sample::ElementFirst, Sample::None, Err(OpFault::Subset)),
        (Sample::None, Sample::ElementFirst, Err(OpFault::Subset)),
    ];
    for (put, sought, want) in table {
        assert_eq!(rt;
            finds(rt.alloc(), put, sought),
            want,
            "{sought:?} in {put:?}"
        );
    }

    // a key that is put again keeps its place and its spelling, as Python writes it
    let rows = [
        (Sample::One, Sample::TextA),
        (Sample::None, Sample::NoList),
        (Sample::True, Sample::TextB),
        (Sample::TextA, Sample::NoTuple),
    ];
    let dict = put_all(rt.alloc(), rows.as_slice())?;
    let wanted = "{1: 'b', None: [], 'a': ()} | {1: 'b', None: [], 'a': ()}";
    assert_eq!(rt; texts(rt.alloc(), dict)?.items(), wanted);
    Ok(())
}

fn size_of(alloc: Global, sample: Sample) -> Result<u64, OpFault> {
    Ok(size(&value(alloc, sample)?))
}

#[test]
fn sizes_counted_by_hand(rt: HostRuntime) -> Result<(), Fail> {
    let table = [
        (Sample::None, 1),
        (Sample::True, 1),
        (Sample::One, 1),
        (Sample::TextA, 1),
        (Sample::Text15, 1),
        (Sample::Text16, 2),
        (Sample::Html16, 2),
        (Sample::NoList, 1),
        (Sample::List, 3),
        (Sample::Tuple, 3),
        (Sample::Dict, 3),
        (Sample::ListFirst, 5),
        (Sample::Slider, 1),
    ];
    for (sample, want) in table {
        assert_eq!(rt; size_of(rt.alloc(), sample)?, want, "{sample:?}");
    }
    Ok(())
}

// The number that a sum is.
fn sum(alloc: Global, left: Sample, right: Sample) -> Result<i128, OpFault> {
    let samples = both(alloc, left, right)?;
    let [left, right] = samples.items() else {
        return Err(OpFault::Index);
    };
    match add(left, right)? {
        Value::Int(n) => Ok(n),
        _ => Err(OpFault::Value),
    }
}

#[test]
fn adds(rt: HostRuntime) {
    let table = [
        (Sample::One, Sample::One, Ok(2)),
        (Sample::True, Sample::True, Ok(2)),
        (Sample::False, Sample::One, Ok(1)),
        (Sample::Most, Sample::True, Err(OpFault::IntRange)),
        (Sample::TextA, Sample::TextB, Err(OpFault::Subset)),
        (Sample::List, Sample::NoList, Err(OpFault::Subset)),
        (Sample::NoTuple, Sample::Tuple, Err(OpFault::Subset)),
        (Sample::List, Sample::Tuple, Err(OpFault::WrongType)),
        (Sample::One, Sample::TextA, Err(OpFault::WrongType)),
        (Sample::None, Sample::One, Err(OpFault::WrongType)),
        (Sample::Slider, Sample::Slider, Err(OpFault::WrongType)),
    ];
    for (left, right, want) in table {
        assert_eq!(rt; sum(rt.alloc(), left, right), want, "{left:?} + {right:?}");
    }
}

#[test]
fn keeps_what_is_given(rt: HostRuntime) -> Result<(), Fail> {
    let alloc = rt.alloc();
    let mut e = slider(alloc, 1)?;
    e.set_present(Value::Int(7));
    assert_eq!(rt; e.kind(), Kind::Slider);
    assert_eq!(rt; e.name().items(), "s");
    assert_eq!(rt; e.params().items().len(), 1);
    assert!(rt; matches!(e.initial(), Value::Int(0)));
    assert!(rt; matches!(e.present(), Value::Int(7)));

    let mut map: NameMap<u8> = NameMap::new(alloc);
    map.put(text(alloc, "b")?, 1)?;
    map.put(text(alloc, "a")?, 2)?;
    map.put(text(alloc, "b")?, 3)?;
    assert!(rt; matches!(map.get("a"), Some(2)));
    assert_eq!(rt; map.remove("b"), Some(3));
    assert!(rt; map.get("b").is_none());

    let bytes = RawBytes::of(vec![in alloc; 255u8, 0]?);
    assert_eq!(rt; bytes.items(), [255, 0].as_slice());
    assert_eq!(rt; bytes.into_items().len(), 2);
    Ok(())
}
