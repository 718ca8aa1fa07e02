// What stands behind each word of a line, and the word's number in a row.
ghost use Rattle.std.specs.Prelude.{◌≡◌};
ghost use Rattle.format.specs.declared.Kind.{Kind};
ghost use Rattle.format.specs.declared.Listed.{Listed};
ghost use Rattle.format.specs.Shapes.{bare, module_shape, type_shape, definition_shape, origin_shape, node_shape, question_shape};
ghost use Rattle.loader.specs.Numbers.{scope_number, type_number, definition_number, origin_number, node_number, question_number};

use format::{
    DefinitionWord, Kind, Listed, NodeWord, OriginWord, QuestionWord, ScopeWord, Shape, TypeWord,
};

// Three fields and no list.
fn three(a: Kind, b: Kind, c: Kind) -> Shape
    ensures { result ≡ record { a = a; b = b; c = c; list = Listed.Empty } }
{
    Shape {
        a,
        b,
        c,
        list: Listed::Empty,
    }
}

fn two(a: Kind, b: Kind) -> Shape
    ensures { result ≡ record { a = a; b = b; c = Kind.Nothing; list = Listed.Empty } }
{
    three(a, b, Kind::Nothing)
}

fn one(a: Kind) -> Shape
    ensures { result ≡ record { a = a; b = Kind.Nothing; c = Kind.Nothing; list = Listed.Empty } }
{
    two(a, Kind::Nothing)
}

pub fn bare() -> Shape
    ensures { result ≡ bare }
{
    one(Kind::Nothing)
}

// The same fields, and a list.
fn listed(shape: Shape, list: Listed) -> Shape
    ensures { result ≡ record { a = shape.a; b = shape.b; c = shape.c; list = list } }
{
    Shape { list, ..shape }
}

pub fn module_shape() -> Shape
    ensures { result ≡ module_shape }
{
    one(Kind::Name)
}

pub fn type_shape(word: TypeWord) -> Shape
    ensures { result ≡ type_shape word }
{
    match word {
        TypeWord::Felt | TypeWord::Bool | TypeWord::U32 => bare(),
        TypeWord::Custom => one(Kind::Name),
        TypeWord::Ptr => one(Kind::Number),
        TypeWord::Tuple => listed(bare(), Listed::Numbers),
        TypeWord::Array => two(Kind::Number, Kind::Size),
    }
}

pub fn definition_shape(word: DefinitionWord) -> Shape
    ensures { result ≡ definition_shape word }
{
    match word {
        DefinitionWord::Fn => listed(one(Kind::Number), Listed::Fields),
        DefinitionWord::Struct => listed(bare(), Listed::Fields),
        DefinitionWord::Const => two(Kind::MaybeNumber, Kind::MaybeNumber),
        DefinitionWord::Let => listed(
            three(Kind::MaybeNumber, Kind::MaybeNumber, Kind::MaybeNumber),
            Listed::Numbers,
        ),
        DefinitionWord::Param => one(Kind::Number),
        DefinitionWord::Use => two(Kind::Name, Kind::Name),
        DefinitionWord::Loop => bare(),
    }
}

pub fn origin_shape(word: OriginWord) -> Shape
    ensures { result ≡ origin_shape word }
{
    match word {
        OriginWord::Field => two(Kind::Number, Kind::Name),
        OriginWord::Arg => two(Kind::Number, Kind::Number),
        OriginWord::Assign => two(Kind::Number, Kind::Unused),
        OriginWord::Plain | OriginWord::Return | OriginWord::Cond => {
            two(Kind::Unused, Kind::Unused)
        }
    }
}

pub fn node_shape(word: NodeWord) -> Shape
    ensures { result ≡ node_shape word }
{
    match word {
        NodeWord::Lit => one(Kind::MaybeName),
        NodeWord::Ident => one(Kind::Name),
        NodeWord::Un => two(Kind::UnaryOp, Kind::MaybeNumber),
        NodeWord::Bin => three(Kind::BinaryOp, Kind::MaybeNumber, Kind::MaybeNumber),
        NodeWord::Call => listed(one(Kind::MaybeNumber), Listed::MaybeNumbers),
        NodeWord::Member => two(Kind::MaybeNumber, Kind::Name),
        NodeWord::Index => two(Kind::MaybeNumber, Kind::MaybeNumber),
        NodeWord::Slit => three(Kind::Name, Kind::Position, Kind::Position),
        NodeWord::Tuple => listed(bare(), Listed::MaybeNumbers),
        NodeWord::Tidx => two(Kind::MaybeNumber, Kind::Number),
        NodeWord::Arr => listed(bare(), Listed::MaybeNumbers),
        NodeWord::Rep => two(Kind::MaybeNumber, Kind::Size),
        NodeWord::Cast => one(Kind::Number),
        NodeWord::New => two(Kind::Number, Kind::MaybeNumber),
        NodeWord::Paren => one(Kind::MaybeNumber),
        NodeWord::Bool => bare(),
    }
}

pub fn question_shape(word: QuestionWord) -> Shape
    ensures { result ≡ question_shape word }
{
    match word {
        QuestionWord::Expr => three(Kind::Number, Kind::Number, Kind::MaybeNumber),
        QuestionWord::Def => two(Kind::Number, Kind::Number),
        QuestionWord::OfType => three(Kind::Number, Kind::Number, Kind::Number),
        QuestionWord::At => two(Kind::Number, Kind::Position),
    }
}

// The number of a word in a row. Each kind of word has a function of its own: a trait would only repeat the bodies. Each says once
// that the cast is the definition's number.
pub fn scope_number(word: ScopeWord) -> u32
    ensures { result ≡ scope_number word }
{
    word as u32
}

pub fn type_number(word: TypeWord) -> u32
    ensures { result ≡ type_number word }
{
    word as u32
}

pub fn definition_number(word: DefinitionWord) -> u32
    ensures { result ≡ definition_number word }
{
    word as u32
}

pub fn origin_number(word: OriginWord) -> u32
    ensures { result ≡ origin_number word }
{
    word as u32
}

pub fn node_number(word: NodeWord) -> u32
    ensures { result ≡ node_number word }
{
    word as u32
}

pub fn question_number(word: QuestionWord) -> u32
    ensures { result ≡ question_number word }
{
    word as u32
}
