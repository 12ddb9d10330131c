//! Writes the tags of elements.
ghost use Rattle.std.specs.Prelude.{◌≡◌, ◌++◌, option_map, OnOk};
ghost use Rattle.zvt_page.specs.Html.{attribute_text, attributes_of, attributes_text, class_of, end_tag, leaf};
ghost use Rattle.zvt_page.specs.Html.{other_of, render, start_tag};

use crate::elements::{Attribute, Element};
use crate::escapes::escaped;
use std::alloc::AllocError;
use zvt_text::Text;

/// Writes an attribute.
#[tactic(auto, unfolding(crate::specs::Html::attribute_text))]
fn attribute(text: &mut Text, attribute: Attribute, value: &[u8]) -> Result<(), AllocError>
    ensures { OnOk result (text.new ≡ text.old ++ attribute_text attribute value.now) }
{
    text.push(b' ')?;
    text.word(attribute.name().as_bytes())?;
    text.word(b"=\"")?;
    escaped(text, value)?;
    text.push(b'"')
}

/// Writes the attribute, if there is one.
fn other_attribute(text: &mut Text, other: Option<(Attribute, &[u8])>) -> Result<(), AllocError>
    ensures { OnOk result (text.new ≡ text.old
        ++ attributes_text (other_of (option_map (λ a. (a.0, a.1.now)) other.entry))) }
{
    match other {
        Some((name, value)) => attribute(text, name, value),
        None => Ok(()),
    }
}

/// Writes the class of an element, unless it is empty.
fn class_attribute(text: &mut Text, class: &[u8]) -> Result<(), AllocError>
    ensures { OnOk result (text.new ≡ text.old ++ attributes_text (class_of class.now)) }
{
    if class.is_empty() {
        return Ok(());
    }
    attribute(text, Attribute::Class, class)
}

/// Writes the attributes of an element, the class first.
fn attributes(
    text: &mut Text,
    class: &[u8],
    other: Option<(Attribute, &[u8])>,
) -> Result<(), AllocError>
    ensures { OnOk result (text.new ≡ text.old
        ++ attributes_text (attributes_of class.now (option_map (λ a. (a.0, a.1.now)) other.entry))) }
{
    class_attribute(text, class)?;
    other_attribute(text, other)
}

/// Writes the start tag of an element of this class, with another attribute if there is one. An element whose class is
/// empty has none.
#[tactic(auto, unfolding(crate::specs::Html::start_tag))]
pub fn start(
    text: &mut Text,
    element: Element,
    class: &[u8],
    other: Option<(Attribute, &[u8])>,
) -> Result<(), AllocError>
    ensures { OnOk result (text.new ≡ text.old
        ++ start_tag element (attributes_of class.now (option_map (λ a. (a.0, a.1.now)) other.entry))) }
{
    text.push(b'<')?;
    text.word(element.name().as_bytes())?;
    attributes(text, class, other)?;
    text.push(b'>')
}

/// Writes the end tag of an element.
#[tactic(auto, unfolding(crate::specs::Html::end_tag))]
pub fn end(text: &mut Text, element: Element) -> Result<(), AllocError>
    ensures { OnOk result (text.new ≡ text.old ++ end_tag element) }
{
    text.word(b"</")?;
    text.word(element.name().as_bytes())?;
    text.push(b'>')
}

/// Writes an element of this class that holds a text.
pub fn leaf(
    text: &mut Text,
    element: Element,
    class: &[u8],
    characters: &[u8],
) -> Result<(), AllocError>
    ensures { OnOk result (text.new ≡ text.old ++ render (leaf element class.now characters.now)) }
{
    start(text, element, class, None)?;
    escaped(text, characters)?;
    end(text, element)
}
