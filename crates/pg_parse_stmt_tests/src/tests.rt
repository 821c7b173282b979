//! Statements with their trees, and faulty ones with their places, worked out from the grammar by hand.
use crate::shown::Show;
use pg_lexer::read_front;
use pg_parse_expr::ParseFault;
use pg_parse_stmt::*;
use std::alloc::{AllocError, Global};
use std::thread::Builder;

/// The most bytes of a line.
const MAX_LINE: usize = 1048576;

/// The text of a tree.
fn shown(alloc: Global, tree: &StmtTree) -> Result<Vec<u8>, AllocError> {
    let mut text = Vec::new(alloc);
    tree.show(&mut text)?;
    Ok(text)
}

/// The text of the tree that a line is read as, or the line's fault.
fn read(alloc: Global, line: &[u8]) -> Result<Result<Vec<u8>, ParseFault>, AllocError> {
    if line.len() > MAX_LINE {
        return Ok(Err(ParseFault::Memory));
    }
    let lexed = read_front(alloc, line, 1)?;
    match parse_stmt(alloc, 1, &lexed.tokens, lexed.end) {
        Ok(tree) => {
            let text = shown(alloc, &tree);
            drop(tree);
            Ok(Ok(text?))
        }
        Err(fault) => Ok(Err(fault)),
    }
}

/// Whether each line is read as the tree with the text beside it.
fn are_read(alloc: Global, rows: &[(&str, &str)]) -> Result<Option<usize>, AllocError> {
    for (at, (line, want)) in rows.iter().enumerate() {
        match read(alloc, line.as_bytes())? {
            Ok(text) if text.as_slice() == want.as_bytes() => {}
            _ => return Ok(Some(at)),
        }
    }
    Ok(None)
}

/// The first row whose line does not have the fault beside it.
fn are_refused(alloc: Global, rows: &[(&str, ParseFault)]) -> Result<Option<usize>, AllocError> {
    for (at, (line, want)) in rows.iter().enumerate() {
        match read(alloc, line.as_bytes())? {
            Err(fault) if fault == *want => {}
            _ => return Ok(Some(at)),
        }
    }
    Ok(None)
}

#[test]
fn blocks_and_selects_are_read(rt: HostRuntime) -> Result<(), AllocError> {
    let rows: [(&str, &str); 24] = [
        ("begin", "begin"),
        ("BEGIN WORK;", "begin"),
        (
            "Begin Transaction Isolation Level Read Committed ;",
            "begin",
        ),
        ("BEGIN ISOLATION LEVEL READ COMMITTED", "begin"),
        ("COMMIT", "commit"),
        ("END TRANSACTION", "commit"),
        ("ROLLBACK WORK", "rollback"),
        ("ABORT;", "rollback"),
        ("SELECT * FROM t", "select * from t"),
        (
            "select t.*, *, A, b.c as x, a+1 from T",
            "select t.*, *, a, b.c as x, (+ a 1) from t",
        ),
        (
            "SELECT key.*, first.last AS share FROM work AS no",
            "select key.*, first.last as share from work as no",
        ),
        ("SELECT a FROM t x, u AS v", "select a from t as x, u as v"),
        (
            "SELECT a FROM t JOIN u ON t.k = u.k, v INNER JOIN w x ON NOT a JOIN y ON true",
            "select a from t join u on (= t.k u.k), v join w as x on (not a) join y on true",
        ),
        (
            "SELECT a FROM (VALUES (1)) AS v (x)",
            "select a from (values (1)) as v(x)",
        ),
        (
            "SELECT a FROM t, (VALUES (1, 'a'), (NULL, 'b''c')) v (x, y) WHERE x = 2147483648",
            "select a from t, (values (1, 'a'), (null, 'b'c')) as v(x, y) where (= x 2147483648b)",
        ),
        (
            "SELECT a FROM (SELECT * FROM t a, u JOIN v ON b WHERE c) q JOIN (SELECT 1 FROM t) AS r ON d",
            "select a from (select * from t as a, u join v on b where c) as q join (select 1 from t) as r on d",
        ),
        (
            "SELECT a FROM t WHERE a IS NOT DISTINCT FROM b",
            "select a from t where (same a b)",
        ),
        (
            "SELECT a FROM t ORDER BY a, b + 1 DESC, c ASC NULLS FIRST, d DESC NULLS LAST, e NULLS LAST",
            "select a from t order by a asc last, (+ b 1) desc first, c asc first, d desc last, e asc last",
        ),
        ("SELECT a FROM t LIMIT 0010", "select a from t limit 10"),
        (
            "SELECT a FROM t WHERE b ORDER BY c LIMIT 1",
            "select a from t where b order by c asc last limit 1",
        ),
        (
            "SELECT a FROM t FOR UPDATE",
            "select a from t for update wait",
        ),
        (
            "SELECT a FROM t FOR NO KEY UPDATE NOWAIT",
            "select a from t for no key update fail",
        ),
        (
            "SELECT a FROM t FOR SHARE SKIP LOCKED",
            "select a from t for share skip",
        ),
        (
            "SELECT a FROM t, u WHERE b LIMIT 9223372036854775807 FOR KEY SHARE OF locked SKIP LOCKED;",
            "select a from t, u where b limit 9223372036854775807 for key share of locked skip",
        ),
    ];
    assert_eq!(rt; are_read(rt.alloc(), rows.as_slice())?, None);
    Ok(())
}

#[test]
fn writing_statements_are_read(rt: HostRuntime) -> Result<(), AllocError> {
    let rows: [(&str, &str); 24] = [
        ("INSERT INTO t VALUES (1)", "insert t values (1)"),
        (
            "INSERT INTO t AS target (source, b) VALUES (1, -2), (a + 1, 'x')",
            "insert t as target (source, b) values (1, (neg 2)), ((+ a 1), 'x')",
        ),
        (
            "INSERT INTO t SELECT * FROM u WHERE a",
            "insert t select * from u where a",
        ),
        (
            "INSERT INTO t (a) SELECT b FROM u JOIN v ON c ON CONFLICT DO NOTHING",
            "insert t (a) select b from u join v on c conflict nothing",
        ),
        (
            "INSERT INTO t SELECT b FROM u ON CONFLICT DO NOTHING",
            "insert t select b from u conflict nothing",
        ),
        (
            "INSERT INTO t VALUES (1) ON CONFLICT (k) DO NOTHING",
            "insert t values (1) conflict nothing (k)",
        ),
        (
            "INSERT INTO t VALUES (1) ON CONFLICT ON CONSTRAINT t_pkey DO NOTHING",
            "insert t values (1) conflict nothing on t_pkey",
        ),
        (
            "INSERT INTO t VALUES (1) ON CONFLICT (k, (a + b)) WHERE c > 0 DO UPDATE SET v = excluded.v, w = 1 WHERE t.v < 5 RETURNING *",
            "insert t values (1) conflict update (k, expr (+ a b)) where (> c 0) set v = excluded.v, w = 1 where (< t.v 5) returning *",
        ),
        (
            "INSERT INTO t VALUES (1) ON CONFLICT ON CONSTRAINT key DO UPDATE SET nothing = nothing",
            "insert t values (1) conflict update on key set nothing = nothing",
        ),
        (
            "INSERT INTO t VALUES (1) RETURNING a AS b, t.*",
            "insert t values (1) returning a as b, t.*",
        ),
        ("UPDATE t SET a = 1", "update t set a = 1"),
        (
            "UPDATE t AS x SET a = b AND c, d = e",
            "update t as x set a = (and b c), d = e",
        ),
        (
            "UPDATE t x SET a = 1 FROM u, (VALUES (1)) v (c) WHERE x.k = u.k RETURNING u.*",
            "update t as x set a = 1 from u, (values (1)) as v(c) where (= x.k u.k) returning u.*",
        ),
        (
            "UPDATE t SET a = 1 RETURNING merge_action()",
            "update t set a = 1 returning action()",
        ),
        ("DELETE FROM t", "delete t"),
        ("DELETE FROM t x WHERE a", "delete t as x where a"),
        (
            "DELETE FROM t AS x USING u JOIN v ON b WHERE a RETURNING *",
            "delete t as x using u join v on b where a returning *",
        ),
        (
            "MERGE INTO t USING u ON t.k = u.k WHEN MATCHED THEN DELETE",
            "merge t using u on (= t.k u.k) when matched delete",
        ),
        (
            "MERGE INTO t AS a USING (VALUES (1, 2)) AS s (k, v) ON a.k = s.k WHEN MATCHED AND a.v > 1 THEN UPDATE SET v = s.v, w = 2 WHEN NOT MATCHED THEN INSERT VALUES (s.k, s.v)",
            "merge t as a using (values (1, 2)) as s(k, v) on (= a.k s.k) when matched and (> a.v 1) update v = s.v, w = 2, by target insert (s.k, s.v)",
        ),
        (
            "MERGE INTO t a USING (SELECT * FROM u, v) s ON true WHEN NOT MATCHED BY SOURCE AND a.v IS NULL THEN DELETE WHEN NOT MATCHED BY TARGET AND s.v THEN INSERT (k, target) VALUES (1, source) RETURNING merge_action() AS action",
            "merge t as a using (select * from u, v) as s on true when by source and (null? a.v) delete, by target and s.v insert (k, target) (1, source) returning action() as action",
        ),
        (
            "MERGE INTO t USING u ON a WHEN MATCHED AND b AND c THEN DO NOTHING WHEN NOT MATCHED THEN DO NOTHING WHEN NOT MATCHED BY SOURCE THEN DO NOTHING",
            "merge t using u on a when matched and (and b c) nothing, by target nothing, by source nothing",
        ),
        (
            "MERGE INTO t USING u ON a WHEN NOT MATCHED BY SOURCE THEN UPDATE SET x = 1",
            "merge t using u on a when by source update x = 1",
        ),
        (
            "INSERT INTO t VALUES ((1)), ((2))",
            "insert t values (1), (2)",
        ),
        ("DELETE FROM source", "delete source"),
    ];
    assert_eq!(rt; are_read(rt.alloc(), rows.as_slice())?, None);
    Ok(())
}

#[test]
fn tables_and_indexes_are_read(rt: HostRuntime) -> Result<(), AllocError> {
    let rows: [(&str, &str); 16] = [
        ("CREATE TABLE t (a integer)", "table t (a integer)"),
        (
            "CREATE TABLE t (a int, b bigint, c text, d boolean, e bool)",
            "table t (a integer, b bigint, c text, d boolean, e boolean)",
        ),
        (
            "CREATE TABLE t (a int PRIMARY KEY, b int UNIQUE NOT NULL)",
            "table t (a integer primary, b integer unique not null)",
        ),
        (
            "CREATE TABLE t (a int NOT NULL NOT NULL DEFAULT 5 DEFAULT -7)",
            "table t (a integer not null not null default 5 default -7)",
        ),
        (
            "CREATE TABLE t (a bigint DEFAULT 2147483648, b bigint DEFAULT -2147483648)",
            "table t (a bigint default 2147483648b, b bigint default -2147483648b)",
        ),
        (
            "CREATE TABLE t (a bigint DEFAULT 9223372036854775807, b bigint DEFAULT -9223372036854775807)",
            "table t (a bigint default 9223372036854775807b, b bigint default -9223372036854775807b)",
        ),
        (
            "CREATE TABLE t (a int DEFAULT 2147483647, b int DEFAULT -2147483647)",
            "table t (a integer default 2147483647, b integer default -2147483647)",
        ),
        (
            "CREATE TABLE t (a text DEFAULT 'x', b bool DEFAULT TRUE, c bool DEFAULT false, d int DEFAULT NULL)",
            "table t (a text default 'x', b boolean default true, c boolean default false, d integer default null)",
        ),
        (
            "CREATE TABLE t (a int CHECK (a > 0))",
            "table t (a integer check (> a 0))",
        ),
        (
            "CREATE TABLE t (a int CONSTRAINT p PRIMARY KEY CONSTRAINT u UNIQUE CONSTRAINT c CHECK (a = 1))",
            "table t (a integer constraint p primary constraint u unique constraint c check (= a 1))",
        ),
        (
            "CREATE TABLE t (a int, PRIMARY KEY (a), UNIQUE (a, b), CHECK (a = b))",
            "table t (a integer, constraint primary (a), constraint unique (a, b), constraint check (= a b))",
        ),
        (
            "CREATE TABLE t (CONSTRAINT p PRIMARY KEY (a), CONSTRAINT u UNIQUE (b), CONSTRAINT c CHECK (true))",
            "table t (constraint p primary (a), constraint u unique (b), constraint c check true)",
        ),
        (
            "CREATE TABLE key (no int, level int);",
            "table key (no integer, level integer)",
        ),
        ("CREATE UNIQUE INDEX i ON t (a)", "index i on t (a)"),
        (
            "CREATE UNIQUE INDEX i ON t (a, (b), (a || 'x')) WHERE NOT d",
            "index i on t (a, expr b, expr (|| a 'x')) where (not d)",
        ),
        (
            "create unique index last on first (read);",
            "index last on first (read)",
        ),
    ];
    assert_eq!(rt; are_read(rt.alloc(), rows.as_slice())?, None);
    Ok(())
}

#[test]
fn selects_are_refused_at_their_places(rt: HostRuntime) -> Result<(), AllocError> {
    let rows: [(&str, ParseFault); 24] = [
        ("", ParseFault::Syntax(1)),
        ("  ", ParseFault::Syntax(3)),
        ("t", ParseFault::Syntax(1)),
        ("select", ParseFault::Syntax(7)),
        ("select *", ParseFault::Syntax(9)),
        ("select * from where", ParseFault::Syntax(15)),
        ("select * from t where", ParseFault::Syntax(22)),
        ("select * from t share", ParseFault::Syntax(17)),
        ("select * from t as where", ParseFault::Syntax(20)),
        ("select a b from t", ParseFault::Syntax(10)),
        ("select a, from t", ParseFault::Syntax(11)),
        ("select t. from t", ParseFault::Syntax(11)),
        ("select t.* as x from t", ParseFault::Syntax(12)),
        ("select * from t limit -1", ParseFault::Syntax(23)),
        ("select * from t limit 1 order by a", ParseFault::Syntax(25)),
        ("select * from t order a", ParseFault::Syntax(23)),
        ("select * from t order by a nulls", ParseFault::Syntax(33)),
        ("select * from t for key update", ParseFault::Syntax(25)),
        ("select * from t for no key share", ParseFault::Syntax(28)),
        ("select * from t for update skip", ParseFault::Syntax(32)),
        ("select * from t join u where a", ParseFault::Syntax(24)),
        ("select * from t, ", ParseFault::Syntax(18)),
        ("select * from (values (1)) v", ParseFault::Syntax(29)),
        (
            "select * from (select * from (select * from u) v) w",
            ParseFault::Syntax(30),
        ),
    ];
    assert_eq!(rt; are_refused(rt.alloc(), rows.as_slice())?, None);
    Ok(())
}

#[test]
fn writing_statements_are_refused_at_their_places(rt: HostRuntime) -> Result<(), AllocError> {
    let rows: [(&str, ParseFault); 20] = [
        ("insert t values (1)", ParseFault::Syntax(8)),
        ("insert into t x values (1)", ParseFault::Syntax(15)),
        ("insert into t values 1", ParseFault::Syntax(22)),
        ("insert into t values ()", ParseFault::Syntax(23)),
        ("insert into t values (1,)", ParseFault::Syntax(25)),
        ("insert into t () values (1)", ParseFault::Syntax(16)),
        (
            "insert into t values (1) on conflict do update set a = 1",
            ParseFault::Syntax(41),
        ),
        (
            "insert into t values (1) on conflict (a) set",
            ParseFault::Syntax(42),
        ),
        (
            "insert into t values (1) on conflict on constraint do nothing",
            ParseFault::Syntax(52),
        ),
        ("update t set", ParseFault::Syntax(13)),
        ("update t set a.b = 1", ParseFault::Syntax(15)),
        ("update t set a = 1, where b", ParseFault::Syntax(21)),
        ("delete t", ParseFault::Syntax(8)),
        ("delete from t where a using u", ParseFault::Syntax(23)),
        ("merge into t using u on a", ParseFault::Syntax(26)),
        (
            "merge into t using u, v on a when matched then delete",
            ParseFault::Syntax(21),
        ),
        (
            "merge into t using u on a when matched then insert values (1)",
            ParseFault::Syntax(45),
        ),
        (
            "merge into t using u on a when not matched then delete",
            ParseFault::Syntax(49),
        ),
        (
            "merge into t using u on a when not matched by source then insert values (1)",
            ParseFault::Syntax(59),
        ),
        (
            "merge into t using u on a when not matched by target and b delete",
            ParseFault::Syntax(60),
        ),
    ];
    assert_eq!(rt; are_refused(rt.alloc(), rows.as_slice())?, None);
    Ok(())
}

#[test]
fn other_lines_are_refused_at_their_places(rt: HostRuntime) -> Result<(), AllocError> {
    let rows: [(&str, ParseFault); 22] = [
        ("create table t ()", ParseFault::Syntax(17)),
        ("create table t (a)", ParseFault::Syntax(18)),
        (
            "create table t (a int default - 'x')",
            ParseFault::Syntax(33),
        ),
        ("create table t (a int primary)", ParseFault::Syntax(30)),
        (
            "create table t (a int constraint c not null)",
            ParseFault::Syntax(36),
        ),
        ("create table t (constraint c)", ParseFault::Syntax(29)),
        (
            "create table t (a int unique nulls not distinct)",
            ParseFault::Syntax(30),
        ),
        ("create index i on t (a)", ParseFault::Syntax(8)),
        ("create unique index i on t (a b)", ParseFault::Syntax(31)),
        ("create unique index i on t (a + b)", ParseFault::Syntax(31)),
        ("begin isolation level serializable", ParseFault::Syntax(23)),
        ("begin work transaction", ParseFault::Syntax(12)),
        ("commit;;", ParseFault::Syntax(8)),
        ("select * from t for update;x", ParseFault::Syntax(28)),
        (
            "select * from a, b, c, d, e, f, g, h, i",
            ParseFault::Items(39),
        ),
        (
            "select * from a, b, c, d, e, f, g, h, where",
            ParseFault::Syntax(39),
        ),
        (
            "select * from a, b, c, d, e, f, (select 1 from g, h) x",
            ParseFault::Items(51),
        ),
        (
            "delete from t using a, b, c, d, e, f, g, h, (values (1)) x (y)",
            ParseFault::Items(45),
        ),
        (
            "merge into t using (select 1 from a, b, c, d, e, f, g, h) x on y",
            ParseFault::Items(56),
        ),
        (
            "insert into t select 1 from a, b, c, d, e, f, g, h, i",
            ParseFault::Items(53),
        ),
        (
            "select ----------------------------------------------------------------1 from t",
            ParseFault::Depth(72),
        ),
        (
            "update t set a = 1 where ----------------------------------------------------------------b from",
            ParseFault::Depth(90),
        ),
    ];
    assert_eq!(rt; are_refused(rt.alloc(), rows.as_slice())?, None);
    Ok(())
}

/// The start, the piece so many times, and the end.
fn repeated(
    alloc: Global,
    start: &str,
    piece: &str,
    count: usize,
    end: &str,
) -> Result<Vec<u8>, AllocError> {
    let mut line = Vec::new(alloc);
    line.extend_from_slice(start.as_bytes())?;
    for _ in 0..count {
        line.extend_from_slice(piece.as_bytes())?;
    }
    line.extend_from_slice(end.as_bytes())?;
    Ok(line)
}

fn fault_of(
    alloc: Global,
    start: &str,
    piece: &str,
    count: usize,
    end: &str,
) -> Result<Option<ParseFault>, AllocError> {
    let line = repeated(alloc, start, piece, count, end)?;
    Ok(read(alloc, line.as_slice())?.err())
}

/// Lists are read by loops: each line of about 1 MiB is read or refused in a stack of 1 MiB.
#[test]
fn lists_have_any_length(rt: HostRuntime) -> Result<(), AllocError> {
    for (start, piece, count, end, want) in [
        ("select a", ",a", 524000, " from t", None),
        (
            "select a",
            ",a",
            524000,
            "",
            Some(ParseFault::Syntax(1048009)),
        ),
        ("insert into t values (1)", ",(1)", 262000, "", None),
        ("insert into t values (1", ",1", 524000, ")", None),
        (
            "insert into t (a",
            ",a",
            524000,
            ")",
            Some(ParseFault::Syntax(1048018)),
        ),
        ("update t set a=1", ",a=1", 262000, "", None),
        (
            "merge into t using u on a",
            " when matched then delete",
            41000,
            "",
            None,
        ),
        ("create table t (a int", " unique", 149000, ")", None),
        ("create table t (a int", ",unique(a)", 104000, ")", None),
        ("create unique index i on t (a", ",(a)", 262000, ")", None),
        ("select a from t order by a", ",a desc", 149000, "", None),
    ] {
        let reading = Builder::new()
            .stack_size(1048576)
            .spawn(&rt, move || fault_of(rt.alloc(), start, piece, count, end))
            .map_err(|_| AllocError)?;
        assert_eq!(rt; reading.join(&rt)?, want, "{start}");
    }
    Ok(())
}
