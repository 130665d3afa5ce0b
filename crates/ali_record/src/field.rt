//! The fields of a record.
ghost use Rattle.std.specs.Prelude.{◌≡◌, ◌≤◌};

/// A field of a record, by the columns that it stands in.
#[derive(Clone, Copy, Debug, PartialEq, Eq)]
pub enum Field {
    /// Column 1: function: I insert, C change, D delete, U unlock, M migrate
    Function,
    /// Columns 2 to 11: telephone number
    TelephoneNumber,
    /// Columns 12 to 21: house number
    HouseNumber,
    /// Columns 22 to 25: house suffix
    HouseSuffix,
    /// Columns 26 to 27: prefix directional
    PrefixDirectional,
    /// Columns 28 to 87: street name
    StreetName,
    /// Columns 88 to 91: street suffix
    StreetSuffix,
    /// Columns 92 to 93: post directional
    PostDirectional,
    /// Columns 94 to 125: community
    Community,
    /// Columns 126 to 127: state
    State,
    /// Columns 128 to 187: location
    Location,
    /// Columns 188 to 219: customer name
    CustomerName,
    /// Column 220: class of service
    ClassOfService,
    /// Column 221: type of service
    TypeOfService,
    /// Columns 222 to 225: exchange
    Exchange,
    /// Columns 226 to 230: emergency service number (ESN)
    Esn,
    /// Columns 231 to 240: main number
    MainNumber,
    /// Columns 241 to 250: order number
    OrderNumber,
    /// Columns 251 to 256: extract date, MMDDYY
    ExtractDate,
    /// Columns 257 to 260: county
    County,
    /// Columns 261 to 265: company
    Company,
    /// Column 266: source
    Source,
    /// Columns 267 to 275: postal code
    PostalCode,
    /// Columns 276 to 511: reserve: kept and unread
    Reserve,
    /// Column 512: end mark, `*`
    EndMark,
}

impl Field {
    ghost use Rattle.ali_record.specs.Layout.{field_columns};

    /// Its first and its last column, counted from 1.
    pub fn columns(self) -> (usize, usize)
        ensures value { result ≡ field_columns self }
        ensures range { (1 ≤ result.0) × (result.0 ≤ result.1) × (result.1 ≤ 512) }
    {
        match self {
            Field::Function => (1, 1),
            Field::TelephoneNumber => (2, 11),
            Field::HouseNumber => (12, 21),
            Field::HouseSuffix => (22, 25),
            Field::PrefixDirectional => (26, 27),
            Field::StreetName => (28, 87),
            Field::StreetSuffix => (88, 91),
            Field::PostDirectional => (92, 93),
            Field::Community => (94, 125),
            Field::State => (126, 127),
            Field::Location => (128, 187),
            Field::CustomerName => (188, 219),
            Field::ClassOfService => (220, 220),
            Field::TypeOfService => (221, 221),
            Field::Exchange => (222, 225),
            Field::Esn => (226, 230),
            Field::MainNumber => (231, 240),
            Field::OrderNumber => (241, 250),
            Field::ExtractDate => (251, 256),
            Field::County => (257, 260),
            Field::Company => (261, 265),
            Field::Source => (266, 266),
            Field::PostalCode => (267, 275),
            Field::Reserve => (276, 511),
            Field::EndMark => (512, 512),
        }
    }
}
