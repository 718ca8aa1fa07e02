// The words of the index file's format, which the definitions in specs/ and the loader share.
#![tactic(auto)]

// What a line is, by its first field. (A field that is none of its place's words, here and below, is `None`. The order of the cases is that of the words' numbers in
// a row.)
#[derive(Clone, Copy)]
pub enum LineWord {
    M,
    S,
    T,
    D,
    E,
    Q,
}

// What a field of a line holds. `Nothing` reads no field. (It is a case, as `Empty` is of `Listed`, and no `Option` without a value: the shapes of the definition are
// over these enums.)
#[derive(Clone, Copy)]
pub enum Kind {
    Nothing,
    // A link, a count or an index: a number below 65,536.
    Number,
    // The same, or `-`.
    MaybeNumber,
    Position,
    Size,
    Name,
    // A name, or `-`.
    MaybeName,
    UnaryOp,
    BinaryOp,
    // `-` alone.
    Unused,
}

// What the list at a line's end holds. `Empty` is no list.
#[derive(Clone, Copy)]
pub enum Listed {
    Empty,
    Numbers,
    MaybeNumbers,
    // A name and a number each.
    Fields,
}

// What stands behind a word: at most three fields, and a list.
#[derive(Clone, Copy)]
pub struct Shape {
    pub a: Kind,
    pub b: Kind,
    pub c: Kind,
    pub list: Listed,
}

#[derive(Clone, Copy)]
pub enum ScopeWord {
    Module,
    Function,
    Block,
    Loop,
}

#[derive(Clone, Copy)]
pub enum TypeWord {
    Felt,
    Bool,
    U32,
    Custom,
    Ptr,
    Tuple,
    Array,
}

#[derive(Clone, Copy)]
pub enum DefinitionWord {
    Fn,
    Struct,
    Const,
    Let,
    Param,
    Use,
    Loop,
}

#[derive(Clone, Copy)]
pub enum OriginWord {
    Plain,
    Field,
    Arg,
    Assign,
    Return,
    Cond,
}

#[derive(Clone, Copy)]
pub enum NodeWord {
    Lit,
    Bool,
    Ident,
    Un,
    Bin,
    Call,
    Member,
    Index,
    Slit,
    Tuple,
    Tidx,
    Arr,
    Rep,
    Cast,
    New,
    Paren,
}

#[derive(Clone, Copy)]
pub enum QuestionWord {
    Expr,
    Def,
    OfType,
    At,
}
