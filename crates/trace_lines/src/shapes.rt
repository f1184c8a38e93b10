// The items of each record, in the order of its line: docs/TRACES.md, 'Lines'.
ghost use Rattle.std.specs.Prelude.{◌≡◌, Some};
ghost use Rattle.trace_rules.specs.Fields.{shape};
ghost use Rattle.trace_lines.specs.Items.{item_of, items_of, letter_of};
ghost use Rattle.trace_lines.specs.Widths.{item_width};

use crate::line_kind::LineKind;

// What a field holds: a float's bits, any whole number, or a number with a range.
#[derive(Clone, Copy, PartialEq, Eq, Debug)]
pub enum Kind {
    Float,
    Number,
    Collider,
    Body,
    Mark,
    Rule,
}

// One value of a record: a field; a field that a dash may stand for; a coefficient with its rule, or a dash; the setting.
#[derive(Clone, Copy, PartialEq, Eq, Debug)]
pub enum Item {
    Plain(Kind),
    Optional(Kind),
    Coefficient,
    Setting,
}

impl Item {
    // How many words it reads to.
    pub fn width(self) -> usize
        ensures { result ≡ item_width (item_of self) }
    {
        match self {
            Item::Plain(_) => 1,
            Item::Optional(_) => 2,
            Item::Coefficient => 3,
            Item::Setting => 2,
        }
    }
}

const FLOAT: Item = Item::Plain(Kind::Float);

const NUMBER: Item = Item::Plain(Kind::Number);

const COLLIDER: Item = Item::Plain(Kind::Collider);

const BODY: Item = Item::Plain(Kind::Body);

const MARK: Item = Item::Plain(Kind::Mark);

const RULE: Item = Item::Plain(Kind::Rule);

// Those that a dash may stand for, a pair being a coefficient and its rule.
const BODY_DASH: Item = Item::Optional(Kind::Body);

const FLOAT_DASH: Item = Item::Optional(Kind::Float);

const PAIR_DASH: Item = Item::Coefficient;

const SETTING: Item = Item::Setting;

static ADDITION: [Item; 7] = [COLLIDER, COLLIDER, BODY_DASH, BODY_DASH, MARK, MARK, FLOAT];

static SETTINGS: [Item; 11] = [
    FLOAT, FLOAT, FLOAT, FLOAT, FLOAT, MARK, FLOAT, RULE, FLOAT, RULE, SETTING,
];

static COLLIDER_RECORD: [Item; 17] = [
    COLLIDER, BODY_DASH, FLOAT, FLOAT, FLOAT, FLOAT, FLOAT, FLOAT, FLOAT, FLOAT, FLOAT, NUMBER,
    NUMBER, PAIR_DASH, PAIR_DASH, FLOAT_DASH, MARK,
];

static BODY_RECORD: [Item; 22] = [
    BODY, MARK, FLOAT, FLOAT, FLOAT, FLOAT, FLOAT, FLOAT, FLOAT, FLOAT, FLOAT, FLOAT, FLOAT, FLOAT,
    FLOAT, FLOAT, FLOAT, FLOAT, PAIR_DASH, FLOAT_DASH, FLOAT_DASH, FLOAT,
];

static HOOK: [Item; 3] = [COLLIDER, COLLIDER, MARK];

static MANIFOLD: [Item; 5] = [COLLIDER, COLLIDER, FLOAT, FLOAT, FLOAT];

static POINT: [Item; 12] = [
    FLOAT, FLOAT, FLOAT, FLOAT, FLOAT, FLOAT, FLOAT, FLOAT, FLOAT, FLOAT, NUMBER, NUMBER,
];

impl LineKind {
    // The items of its lines.
    #[tactic(auto, unfolding(trace_rules::specs::Fields::shape))]
    pub fn items(self) -> &'static [Item]
        ensures { shape (letter_of self) ≡ Some (items_of result.now) }
    {
        match self {
            LineKind::Addition => &ADDITION,
            LineKind::Settings => &SETTINGS,
            LineKind::Collider => &COLLIDER_RECORD,
            LineKind::Body => &BODY_RECORD,
            LineKind::Hook => &HOOK,
            LineKind::Manifold => &MANIFOLD,
            LineKind::Point => &POINT,
            LineKind::Go => &[],
        }
    }
}
