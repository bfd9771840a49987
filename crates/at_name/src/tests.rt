//! Each public call, on texts that a script has.
use crate::{NameFault, Names};
use at_value::Name;

#[test]
fn the_special_names_have_their_numbers(rt: HostRuntime) -> Result<(), NameFault> {
    let names = Names::new(rt.alloc())?;
    assert_eq!(rt; names.len(), 5);
    for (text, name) in [
        ("__get__", Name::descriptor_get()),
        ("__set__", Name::descriptor_set()),
        ("__delete__", Name::descriptor_delete()),
        ("__getattr__", Name::getattr()),
        ("__init__", Name::init()),
    ] {
        assert_eq!(rt; names.find(text), Some(name));
        assert_eq!(rt; names.text(name), Some(text));
    }
    Ok(())
}

#[test]
fn a_text_keeps_its_number(rt: HostRuntime) -> Result<(), NameFault> {
    let mut names = Names::new(rt.alloc())?;
    let colour = names.intern("colour")?;
    let size = names.intern("size")?;
    assert_eq!(rt; colour.number(), 5);
    assert_eq!(rt; size.number(), 6);
    assert_eq!(rt; names.intern("colour")?, colour);
    assert_eq!(rt; names.intern("__init__")?, Name::init());
    assert_eq!(rt; names.len(), 7);
    assert_eq!(rt; names.text(size), Some("size"));
    assert_eq!(rt; names.find("weight"), None);
    Ok(())
}

#[test]
fn a_full_table_refuses_a_new_text(rt: HostRuntime) -> Result<(), NameFault> {
    let mut names = Names::new(rt.alloc())?;
    for i in 5..Name::COUNT {
        let text = format!(in rt.alloc(); "n{i}")?;
        assert_eq!(rt; names.intern(&text)?.number(), i);
    }
    assert_eq!(rt; names.len(), Name::COUNT);
    assert_eq!(rt; names.intern("weight"), Err(NameFault::TooMany));
    assert_eq!(rt; names.intern("n4095")?.number(), 4095);
    assert_eq!(rt; names.find("weight"), None);
    Ok(())
}
