// The limits of the tables.
ghost use Rattle.std.specs.Prelude.{◌≡◌};
ghost use Rattle.sheet.specs.Calls.{sizes_fit};

pub const EXPR_LIMIT: usize = 32768;

pub const STMT_LIMIT: usize = 4096;

pub const DECL_LIMIT: usize = 4096;

// Whether no table is over its limit, and there are marks for all records.
pub fn sizes_fit(exprs: usize, stmts: usize, decls: usize, marks: usize) -> bool
    ensures { result ≡ sizes_fit exprs stmts decls marks }
{
    exprs <= EXPR_LIMIT
        && stmts <= STMT_LIMIT
        && decls <= DECL_LIMIT
        && exprs + (stmts + decls) <= marks
}
