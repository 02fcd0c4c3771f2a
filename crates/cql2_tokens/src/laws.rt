//! Laws about the definitions themselves. The functions do nothing: each function's contract is the law.
ghost use Rattle.std.specs.Prelude.{◌≡◌, Some, None};
ghost use Rattle.cql2.specs.Column.{column_name};
ghost use Rattle.cql2.specs.declared.column.Column.{Column};
ghost use Rattle.cql2_tokens.specs.Name.{column_named, keyword_named, keyword_text};
ghost use Rattle.cql2_tokens.specs.declared.token.Keyword.{Keyword};

/// Proves that each column is found by its name, which no other column has, even in another case, and which is not a keyword.
pub fn column_names()
    ensures found { (column : Column) → column_named (column_name column) ≡ Some column }
    ensures no_keyword { (column : Column) → keyword_named (column_name column) ≡ None }
{}

/// Proves that each keyword is found by its text, which no other keyword has, even in another case.
pub fn keyword_texts()
    ensures { (keyword : Keyword) → keyword_named (keyword_text keyword) ≡ Some keyword }
{}
