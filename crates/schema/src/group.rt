// The links from a schema to others.

// The groups of links.
#[derive(Clone, Copy, PartialEq, Eq, Debug)]
pub enum Group {
    Properties,
    Items,
    Additional,
    AllOf,
    OneOf,
    AnyOf,
}

// The order in which they are followed: when a schema is loaded, and when a record is walked.
pub const ORDER: [Group; 6] = [
    Group::Properties,
    Group::Items,
    Group::Additional,
    Group::AllOf,
    Group::OneOf,
    Group::AnyOf,
];
