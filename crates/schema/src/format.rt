// What a schema says of its texts.
ghost use Rattle.std.specs.Prelude.{◌≡◌, Some};
ghost use Rattle.schema.specs.Parts.{named_format};

// The `format` of a schema. Texts under `Duration` and `Bytes` are converted, if they can be.
#[derive(Clone, Copy, PartialEq, Eq, Debug, Default)]
pub enum SchemaFormat {
    Duration,
    Bytes,
    // An integer or a text: no format counts.
    IntOrString,
    #[default]
    None,
}

impl SchemaFormat {
    // The format with that name.
    pub(crate) fn named(name: &[u8]) -> SchemaFormat
        ensures { result ≡ named_format (Some name.now) }
    {
        match name {
            b"duration" => SchemaFormat::Duration,
            b"byte" => SchemaFormat::Bytes,
            _ => SchemaFormat::None,
        }
    }
}
