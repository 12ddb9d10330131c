//! The names of the elements and attributes of a page.

/// An element of a page.
#[derive(Clone, Copy, Debug, PartialEq, Eq)]
pub enum Element {
    A,
    Dd,
    Div,
    Dl,
    Dt,
    Footer,
    H1,
    H2,
    H3,
    Header,
    Li,
    Main,
    Ol,
    P,
    Pre,
    Section,
    Span,
    Table,
    Tbody,
    Td,
    Th,
    Thead,
    Tr,
}

impl Element {
    ghost use Rattle.std.specs.Prelude.{◌≡◌};
    ghost use Rattle.zvt_page.specs.Names.{element_name};

    /// Returns the name of the element.
    pub(crate) fn name(self) -> &'static str
        ensures { result.now ≡ element_name self }
    {
        match self {
            Element::A => "a",
            Element::Dd => "dd",
            Element::Div => "div",
            Element::Dl => "dl",
            Element::Dt => "dt",
            Element::Footer => "footer",
            Element::H1 => "h1",
            Element::H2 => "h2",
            Element::H3 => "h3",
            Element::Header => "header",
            Element::Li => "li",
            Element::Main => "main",
            Element::Ol => "ol",
            Element::P => "p",
            Element::Pre => "pre",
            Element::Section => "section",
            Element::Span => "span",
            Element::Table => "table",
            Element::Tbody => "tbody",
            Element::Td => "td",
            Element::Th => "th",
            Element::Thead => "thead",
            Element::Tr => "tr",
        }
    }
}

/// An attribute of an element.
#[derive(Clone, Copy, Debug, PartialEq, Eq)]
pub enum Attribute {
    Class,
    Href,
    Id,
    Scope,
}

impl Attribute {
    ghost use Rattle.std.specs.Prelude.{◌≡◌};
    ghost use Rattle.zvt_page.specs.Names.{attribute_name};

    /// Returns the name of the attribute.
    pub(crate) fn name(self) -> &'static str
        ensures { result.now ≡ attribute_name self }
    {
        match self {
            Attribute::Class => "class",
            Attribute::Href => "href",
            Attribute::Id => "id",
            Attribute::Scope => "scope",
        }
    }
}
