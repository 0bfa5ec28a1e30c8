//! What a hist trigger says, as it is shown.

ghost use Rattle.std.specs.Prelude.{◌≡◌, ◌∷◌, ◌++◌, codes, option_copied, OnOk};
ghost use Rattle.std.specs.Fmt.{decimal};
ghost use Rattle.std.specs.List.{flat_map, join_by};
ghost use Rattle.trace_format.specs.declared.key.Key.{Key as KeySeen};
ghost use Rattle.trace_trigger.specs.SameSpecs.{filter_text};
ghost use Rattle.trace_text.specs.TriggerText as texts;

use record_text::append::{push, push_three, push_with_number};
use std::alloc::AllocError;
use trace_format::Text;
use trace_hist::{HistSpec, Key, SortKey};

/// Appends names that follow another one.
fn push_further_names(out: &mut Vec<u8>, names: &[Text]) -> Result<(), AllocError>
    ensures { OnOk result (out.new.items
        ≡ out.old.items ++ flat_map (λ name. codes "," ++ name) names.now) }
{
    for name in names {
        push(out, b",")?;
        out.extend_from_slice(name.as_bytes())?;
    }
    Ok(())
}

/// Appends keys that follow another one.
fn push_further_keys(out: &mut Vec<u8>, keys: &[Key]) -> Result<(), AllocError>
    ensures { OnOk result (out.new.items
        ≡ out.old.items ++ flat_map (λ (key : KeySeen). codes "," ++ key.written) keys.now) }
{
    for key in keys {
        push(out, b",")?;
        out.extend_from_slice(key.written.as_bytes())?;
    }
    Ok(())
}

/// Appends keys as written, with a `,` between each two.
fn push_keys(out: &mut Vec<u8>, keys: &[Key]) -> Result<(), AllocError>
    ensures { OnOk result (out.new.items ≡ out.old.items ++ texts.keys_text keys.now) }
{
    let Some((first, further)) = keys.split_first() else {
        return Ok(());
    };
    out.extend_from_slice(first.written.as_bytes())?;
    push_further_keys(out, further)
}

/// Appends values after their label, with `hitcount` as the first.
fn push_values(out: &mut Vec<u8>, values: &[Text]) -> Result<(), AllocError>
    ensures { OnOk result (out.new.items
        ≡ out.old.items ++ codes ":vals=" ++ texts.with_commas (codes "hitcount" ∷ values.now)) }
{
    push(out, b":vals=hitcount")?;
    push_further_names(out, values)
}

/// Appends a sort key, with its direction if that is descending.
fn push_sort_key(out: &mut Vec<u8>, key: &SortKey) -> Result<(), AllocError>
    ensures { OnOk result (out.new.items ≡ out.old.items ++ texts.sort_text key.now) }
{
    out.extend_from_slice(key.name.as_bytes())?;
    if key.descending {
        push(out, b".descending")?;
    }
    Ok(())
}

/// Appends sort keys that follow another one.
fn push_further_sort_keys(out: &mut Vec<u8>, keys: &[SortKey]) -> Result<(), AllocError>
    ensures { OnOk result (out.new.items
        ≡ out.old.items ++ flat_map (λ key. codes "," ++ texts.sort_text key) keys.now) }
{
    for key in keys {
        push(out, b",")?;
        push_sort_key(out, key)?;
    }
    Ok(())
}

/// Appends sort keys with a `,` between each two.
fn push_sort_keys(out: &mut Vec<u8>, keys: &[SortKey]) -> Result<(), AllocError>
    ensures { OnOk result (out.new.items
        ≡ out.old.items ++ join_by texts.sort_text (codes ",") keys.now) }
{
    let Some((first, further)) = keys.split_first() else {
        return Ok(());
    };
    push_sort_key(out, first)?;
    push_further_sort_keys(out, further)
}

/// Appends the condition of a trigger with a filter, and of another nothing.
pub(crate) fn push_condition(out: &mut Vec<u8>, filter: Option<&[u8]>) -> Result<(), AllocError>
    ensures { OnOk result (out.new.items
        ≡ out.old.items ++ texts.condition_text (option_copied filter.entry)) }
{
    let Some(filter) = filter else {
        return Ok(());
    };
    push(out, b" if ")?;
    out.extend_from_slice(filter)
}

/// Appends how many entries there may be.
fn push_size(out: &mut Vec<u8>, spec: &HistSpec) -> Result<(), AllocError>
    ensures { OnOk result (out.new.items
        ≡ out.old.items ++ codes ":size=" ++ decimal spec.now.size) }
{
    push_with_number(out, b":size=", spec.size())
}

/// Appends the condition of a hist trigger with a filter, and of another nothing.
fn push_filter(out: &mut Vec<u8>, spec: &HistSpec) -> Result<(), AllocError>
    ensures { OnOk result (out.new.items
        ≡ out.old.items ++ texts.condition_text (filter_text spec.now.filter)) }
{
    match spec.filter() {
        Some(filter) => push_condition(out, Some(filter.text())),
        None => Ok(()),
    }
}

/// Appends whether a trigger is paused.
fn push_state(out: &mut Vec<u8>, is_paused: bool) -> Result<(), AllocError>
    ensures { OnOk result (out.new.items ≡ out.old.items ++ texts.state_text is_paused) }
{
    if is_paused {
        push(out, b" [paused]")
    } else {
        push(out, b" [active]")
    }
}

/// Appends the name of a hist trigger's table, and of one without a name nothing.
fn push_name(out: &mut Vec<u8>, spec: &HistSpec) -> Result<(), AllocError>
    ensures { OnOk result (out.new.items ≡ out.old.items ++ texts.name_text spec.now.name) }
{
    let Some(name) = spec.name() else {
        return Ok(());
    };
    push_three(out, b"name=", name, b":")
}

/// Appends a hist trigger's name, if it has one, and its lists, with `hitcount` first among its values.
#[tactic(auto, unfolding(crate::specs::TriggerText::lists_text))]
fn push_lists(out: &mut Vec<u8>, spec: &HistSpec) -> Result<(), AllocError>
    ensures { OnOk result (out.new.items ≡ out.old.items ++ texts.lists_text spec.now) }
{
    push(out, b"hist:")?;
    push_name(out, spec)?;
    push(out, b"keys=")?;
    push_keys(out, spec.keys())?;
    push_values(out, spec.values())?;
    push(out, b":sort=")?;
    push_sort_keys(out, spec.sort())
}

/// Appends what a hist trigger says, and whether it is paused.
#[tactic(auto, unfolding(crate::specs::TriggerText::hist_line))]
pub(crate) fn push_hist_line(
    out: &mut Vec<u8>,
    spec: &HistSpec,
    is_paused: bool,
) -> Result<(), AllocError>
    ensures { OnOk result (out.new.items ≡ out.old.items ++ texts.hist_line spec.now is_paused) }
{
    push_lists(out, spec)?;
    push_size(out, spec)?;
    push_filter(out, spec)?;
    push_state(out, is_paused)
}
