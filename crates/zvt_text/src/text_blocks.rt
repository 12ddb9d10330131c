//! The lines of a text block, and the type of its receipt.
ghost use Rattle.std.specs.Prelude.{◌≡◌, ◌++◌, ◌-◌, IfOk, IsNone, OnOk, length, map, slice_get};
ghost use Rattle.std.specs.Option.{option_copied};
ghost use Rattle.zvt_field.specs.Lent.{shown};
ghost use Rattle.zvt_text.specs.TextBlocks.{block_lines, block_type, field_type, is_line_tag, is_texts_tag};
ghost use Rattle.zvt_text.specs.TextBlocks.{is_type_tag, printed_lines, text_lines, type_in, type_in_content};
ghost use Rattle.zvt_text.specs.TextBlocks.{type_of};

use std::alloc::{AllocError, Global};
use zvt_field::{FieldView, FieldsView};
use zvt_tlv::ForestView;

/// The type of a receipt (tag 1F07).
#[derive(Clone, Copy, Debug, PartialEq, Eq)]
pub enum ReceiptType {
    /// The merchant's copy of the receipt of a transaction.
    Merchant,
    /// The customer's copy of the receipt of a transaction.
    Customer,
    /// A receipt of the terminal's administration, for example of the end of a day.
    Administration,
    /// Any other type, with its byte.
    Other(u8),
}

/// A receipt that a terminal sends as a text block (06 D3).
#[derive(Drop)]
pub struct TextBlock<'a> {
    /// The type of the receipt, if the block names one.
    pub receipt_type: Option<ReceiptType>,
    /// The text lines (tag 07) of the print texts (tag 25), in order.
    pub lines: Vec<&'a [u8]>,
}

/// Returns the lines of a text block, and the type of its receipt.
pub fn text_block<'a>(alloc: Global, fields: FieldsView<'a>) -> Result<TextBlock<'a>, AllocError>
    ensures lines { IfOk result (λ block. map (λ line. line.now) block.lines.items ≡ block_lines fields.entry) }
    ensures receipt_type { IfOk result (λ block. block.receipt_type ≡ block_type fields.entry) }
{
    let receipt_type = block_type(fields.again());
    let mut lines = Vec::new(alloc);
    for field in fields {
        if let Some(objects) = field.tree() {
            add_printed(&mut lines, objects)?;
        }
    }
    Ok(TextBlock {
        receipt_type,
        lines,
    })
}

/// Adds the text lines of the print texts among these objects.
fn add_printed<'a>(lines: &mut Vec<&'a [u8]>, objects: ForestView<'a>) -> Result<(), AllocError>
    ensures { OnOk result (map (λ line. line.now) lines.new.items
        ≡ map (λ line. line.now) lines.old.items ++ printed_lines objects.entry) }
{
    for object in objects {
        match object.children() {
            Some(texts) if is_texts_tag(object.tag) => add_texts(lines, texts)?,
            _ => {}
        }
    }
    Ok(())
}

/// Adds the text lines among these objects.
fn add_texts<'a>(lines: &mut Vec<&'a [u8]>, texts: ForestView<'a>) -> Result<(), AllocError>
    ensures { OnOk result (map (λ line. line.now) lines.new.items
        ≡ map (λ line. line.now) lines.old.items ++ text_lines texts.entry) }
{
    for text in texts {
        match text.children() {
            None if is_line_tag(text.tag) => lines.push(text.content)?,
            _ => {}
        }
    }
    Ok(())
}

/// Returns the line at this index of a text block, counted from 0. Allocates nothing.
pub fn block_line<'a>(fields: FieldsView<'a>, place: usize) -> Option<&'a [u8]>
    ensures { option_copied result ≡ slice_get (block_lines fields.entry) place }
{
    let mut skip = place;
    for field in fields {
        if let Some(objects) = field.tree() {
            let found = printed_at(objects, &mut skip);
            if found.is_some() {
                return found;
            }
        }
    }
    None
}

/// Returns the text line of the print texts among these objects that follows that many others. Without one, leaves the
/// number that is still to skip.
fn printed_at<'a>(objects: ForestView<'a>, skip: &mut usize) -> Option<&'a [u8]>
    ensures found { option_copied result ≡ slice_get (printed_lines objects.entry) skip.old }
    ensures left { IsNone result → skip.new ≡ skip.old - length (printed_lines objects.entry) }
{
    for object in objects {
        match object.children() {
            Some(texts) if is_texts_tag(object.tag) => {
                let found = text_at(texts, skip);
                if found.is_some() {
                    return found;
                }
            }
            _ => {}
        }
    }
    None
}

/// Returns the text line among these objects that follows that many others. Without one, leaves the number that is
/// still to skip.
fn text_at<'a>(texts: ForestView<'a>, skip: &mut usize) -> Option<&'a [u8]>
    ensures found { option_copied result ≡ slice_get (text_lines texts.entry) skip.old }
    ensures left { IsNone result → skip.new ≡ skip.old - length (text_lines texts.entry) }
{
    for text in texts {
        match text.children() {
            None if is_line_tag(text.tag) => {
                if *skip == 0 {
                    return Some(text.content);
                }
                *skip -= 1;
            }
            _ => {}
        }
    }
    None
}

/// Returns the receipt type of the first field that has one.
pub fn block_type(fields: FieldsView<'_>) -> Option<ReceiptType>
    ensures { result ≡ block_type fields.entry }
{
    for field in fields {
        let found = field_type(&field);
        if found.is_some() {
            return found;
        }
    }
    None
}

/// Returns the receipt type in a container.
fn field_type(field: &FieldView<'_>) -> Option<ReceiptType>
    ensures { result ≡ field_type (shown field.now) }
{
    type_in(field.tree()?)
}

/// Returns the first receipt type among these objects.
fn type_in(objects: ForestView<'_>) -> Option<ReceiptType>
    ensures { result ≡ type_in objects.entry }
{
    for object in objects {
        if object.children().is_none() && is_type_tag(object.tag) {
            return type_in_content(object.content);
        }
    }
    None
}

/// Returns the receipt type that the content of its object names.
fn type_in_content(content: &[u8]) -> Option<ReceiptType>
    ensures { result ≡ type_in_content content.now }
{
    match content {
        [code] => Some(type_of(*code)),
        _ => None,
    }
}

fn type_of(code: u8) -> ReceiptType
    ensures { result ≡ type_of code }
{
    match code {
        1 => ReceiptType::Merchant,
        2 => ReceiptType::Customer,
        3 => ReceiptType::Administration,
        other => ReceiptType::Other(other),
    }
}

/// Returns whether objects with this tag are lines of text.
fn is_line_tag(tag: &[u8]) -> bool
    ensures { result ≡ is_line_tag tag.now }
{
    match tag {
        [tag] => *tag == 0x07,
        _ => false,
    }
}

/// Returns whether the objects inside an object with this tag are texts to print.
fn is_texts_tag(tag: &[u8]) -> bool
    ensures { result ≡ is_texts_tag tag.now }
{
    match tag {
        [tag] => *tag == 0x25,
        _ => false,
    }
}

/// Returns whether an object with this tag has the type of a receipt.
fn is_type_tag(tag: &[u8]) -> bool
    ensures { result ≡ is_type_tag tag.now }
{
    match tag {
        [first, second] => *first == 0x1F && *second == 0x07,
        _ => false,
    }
}
