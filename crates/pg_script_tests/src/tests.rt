//! Scripts with what reading them answers, worked out by hand from the rules.
//!
//! A table is a text of one row a line, since tables of tuples take many times as long to prove.
//! `told` says how a row writes a script and its answer. Of the errors of analysis two need several
//! sources, which are not built: that a table name is specified more than once, and that a column
//! reference is ambiguous.
use crate::errors_page::EXAMPLES;
use crate::told::{parts, script_of, told};
use pg_lists::IsSame;
use pg_model::Script;
use pg_script::*;
use std::alloc::{AllocError, Global};

/// Scripts by their first lines.
const HEADERS: &str = "rc 1 stepped => read
rc 1 free => read
rc 1 stepped //  => read
\trc\t 1  free\t => read
rc 1 stepped\r => read
rc 1 stepped\r //  => read
 => line 1: header
 //  => line 1: header
rc 1 stepped\r\r => line 1: header
 // rc 1 stepped => line 1: header
# first // rc 1 stepped => line 1: header
RC 1 stepped => line 1: header
rc 1 Stepped => line 1: header
rc 1 FREE => line 1: header
rc => line 1: header
rc 1 => line 1: header
stepped => line 1: header
rc 1 stepped free => line 1: header
rc 1 stepped; => line 1: header
rc 1 stepped # => line 1: header
rc 1 parallel => line 1: header
rc 01 stepped => line 1: header
rc 1stepped => line 1: header
rc1 stepped => line 1: header
rc 0 stepped => line 1: header
rc 2 stepped => line 1: header
rc 2 free => line 1: header
rc 3 stepped => line 1: header
rc 3 free => line 1: header
a: SELECT => line 1: header
rc 4 stepped // hello => line 1: header";

/// Lines of a form that is not built, of none, and in a place that is not theirs. As long as
/// `pause`, `go` and `cut` are not built, `later` comes before `free`, unless the name of the
/// session is too long.
const FORMS: &str = "rc 1 stepped // setup: CREATE TABLE t (k integer PRIMARY KEY) => line 2: later
rc 1 stepped // setup: CREATE TABLE t (k integer UNIQUE) => line 2: later
rc 1 stepped // setup: CREATE TABLE t (k integer NOT NULL) => line 2: later
rc 1 stepped // setup: CREATE TABLE t (k integer DEFAULT 1) => line 2: later
rc 1 stepped // setup: CREATE TABLE t (k integer CHECK (k > 0)) => line 2: later
rc 1 stepped // setup: CREATE TABLE t (k integer, UNIQUE (k)) => line 2: later
rc 1 stepped // setup: CREATE TABLE t (k integer, CONSTRAINT c CHECK (k > 0)) => line 2: later
rc 1 stepped // setup: CREATE UNIQUE INDEX i ON t (k) => line 2: later
rc 1 stepped // setup: INSERT INTO t SELECT k FROM u => line 2: later
rc 1 stepped // setup: INSERT INTO t VALUES (1) ON CONFLICT DO NOTHING => line 2: later
rc 1 stepped // setup: INSERT INTO t VALUES (1) RETURNING k => line 2: later
rc 1 stepped // a: INSERT INTO t SELECT k FROM u => line 2: later
rc 1 stepped // a: INSERT INTO t VALUES (1) ON CONFLICT (k) DO UPDATE SET k = 2 => line 2: later
rc 1 stepped // a: INSERT INTO t VALUES (1) RETURNING * => line 2: later
rc 1 stepped // a: UPDATE t SET k = 1 FROM u => line 2: later
rc 1 stepped // a: UPDATE t SET k = 1 RETURNING k => line 2: later
rc 1 stepped // a: UPDATE t SET k = merge_action() => line 2: later
rc 1 stepped // a: DELETE FROM t USING u => line 2: later
rc 1 stepped // a: DELETE FROM t RETURNING * => line 2: later
rc 1 stepped // a: MERGE INTO t USING u ON t.k = u.k WHEN MATCHED THEN DELETE => line 2: later
rc 1 stepped // a: SELECT t.k FROM t, u => line 2: later
rc 1 stepped // a: SELECT t.k FROM t JOIN u ON t.k = u.k => line 2: later
rc 1 stepped // a: SELECT k FROM (VALUES (1)) AS s (k) => line 2: later
rc 1 stepped // a: SELECT k FROM (SELECT k FROM t) AS s => line 2: later
rc 1 stepped // a: SELECT k FROM t ORDER BY k => line 2: later
rc 1 stepped // a: SELECT k FROM t LIMIT 1 => line 2: later
rc 1 stepped // a: SELECT k FROM t FOR UPDATE => line 2: later
rc 1 stepped // a: SELECT merge_action() FROM t => line 2: later
rc 1 stepped // pause a at found => line 2: later
rc 1 stepped // go a => line 2: later
rc 1 stepped // cut a => line 2: later
rc 1 free // pause a at found => line 2: later
rc 1 free // go a => line 2: later
rc 1 free // cut a => line 2: later
rc 1 stepped // hello => line 2: line
rc 1 stepped // INSERT INTO t VALUES (1) => line 2: line
rc 1 stepped // rc 1 stepped => line 2: line
rc 1 stepped // SETUP: CREATE TABLE t (k integer) => line 2: line
rc 1 stepped // Setup: BEGIN => line 2: line
rc 1 stepped // setup BEGIN => line 2: line
rc 1 stepped // a BEGIN => line 2: line
rc 1 stepped // a b: BEGIN => line 2: line
rc 1 stepped // : BEGIN => line 2: line
rc 1 stepped // 1a: BEGIN => line 2: line
rc 1 stepped // select: BEGIN => line 2: line
rc 1 stepped // pause: BEGIN => line 2: line
rc 1 stepped // go: BEGIN => line 2: line
rc 1 stepped // cut: BEGIN => line 2: line
rc 1 stepped // reader r: SELECT k FROM t => line 2: line
rc 1 stepped // pause a => line 2: line
rc 1 stepped // pause a at => line 2: line
rc 1 stepped // pause a at Found => line 2: line
rc 1 stepped // pause a at rest => line 2: line
rc 1 stepped // go => line 2: line
rc 1 stepped // go a; => line 2: line
rc 1 stepped // GO a => line 2: line
rc 1 stepped // cut a b => line 2: line
rc 1 free // go {64 n} => line 2: free
rc 1 free // cut {64 n} => line 2: free
rc 1 free // pause {64 n} at found => line 2: free
rc 1 stepped // a: BEGIN // setup: CREATE TABLE t (k integer) => line 3: order
rc 1 stepped // a: SELECT k FROM t // setup: CREATE TABLE t (k integer) => line 3: order
rc 1 stepped // setup: CREATE TABLE t (k integer) // a: BEGIN // # // setup: INSERT INTO t VALUES (1) => line 5: order
rc 1 stepped // setup: CREATE TABLE t (k integer) // # //  // setup: INSERT INTO t VALUES (1) => read
rc 1 stepped // setup: BEGIN => line 2: place
rc 1 stepped // setup: END WORK => line 2: place
rc 1 stepped // setup: ABORT; => line 2: place
rc 1 stepped // setup: CREATE TABLE t (k integer) // setup: SELECT k FROM t => line 3: place
rc 1 stepped // setup: UPDATE t SET k = 1 => line 2: place
rc 1 stepped // setup: DELETE FROM t => line 2: place
rc 1 stepped // a: CREATE TABLE t (k integer) => line 2: place";

/// Faults with a place, one on a line.
const PLACES: &str = "rc 1 stepped // a: SELECT k # FROM t => line 2: byte at 13
rc 1 stepped // a: SELECT \"k\" FROM t => line 2: byte at 11
rc 1 stepped // a: SELECT k | 1 FROM t => line 2: byte at 13
rc 1 stepped // a: SELECT k FROM t WHERE k ! 1 => line 2: byte at 28
rc 1 stepped // a: SELECT [k] FROM t => line 2: byte at 11
rc 1 stepped // a: BEGIN: => line 2: byte at 9
rc 1 stepped // a: BEGIN \x01 => line 2: byte at 10
rc 1 stepped // a: BEGIN\x7f => line 2: byte at 9
rc 1 stepped // a: SELECT é FROM t => line 2: byte at 11
rc 1 stepped // a: SELECT 'x\ty' FROM t => line 2: byte at 13
rc 1 stepped // a: SELECT 'é' FROM t => line 2: byte at 12
rc 1 stepped // a: BEGIN \r x => line 2: byte at 10
rc 1 stepped // a: BEGIN\r\r // a: COMMIT => line 2: byte at 9
rc 1 stepped // setup: INSERT INTO t VALUES (1 #) => line 2: byte at 32
rc 1 stepped // a: INSERT INTO t VALUES (9223372036854775808) => line 2: literal at 26
rc 1 stepped // a: INSERT INTO t VALUES (00009223372036854775808) => line 2: literal at 26
rc 1 stepped // a: SELECT k FROM t WHERE k = 'x => line 2: literal at 30
rc 1 stepped // a: SELECT k FROM t WHERE k = 'x'' => line 2: literal at 30
rc 1 stepped // a: SELECT k FROM t WHERE k = ' => line 2: literal at 30
rc 1 stepped // setup: CREATE TABLE t (k text DEFAULT 'x) => line 2: literal at 39
rc 1 stepped // a: SELECT k AS {64 n} FROM t => line 2: name at 16
rc 1 stepped // a: SELECT {64 n}.k FROM t => line 2: name at 11
rc 1 stepped // setup: CREATE TABLE {64 n} (k integer) => line 2: name at 21
rc 1 stepped // {64 n}: BEGIN => line 2: name at 1
rc 1 stepped // \t{64 n}: BEGIN => line 2: name at 2
rc 1 stepped // go {64 n} => line 2: name at 4
rc 1 stepped // pause {64 n} at found => line 2: name at 7
rc 1 stepped // a: => line 2: syntax at 3
rc 1 stepped // a: \t => line 2: syntax at 5
rc 1 stepped // setup: => line 2: syntax at 7
rc 1 stepped // a: ; => line 2: syntax at 4
rc 1 stepped // a: BEGIN;; => line 2: syntax at 10
rc 1 stepped // a: BEGIN -- now => line 2: syntax at 10
rc 1 stepped // a: COMMIT BEGIN => line 2: syntax at 11
rc 1 stepped // a: SELEC 1 => line 2: syntax at 4
rc 1 stepped // a: SELECT FROM t => line 2: syntax at 11
rc 1 stepped // a: SELECT k FROM => line 2: syntax at 17
rc 1 stepped // a: SELECT k, FROM t => line 2: syntax at 14
rc 1 stepped // a: SELECT k k FROM t => line 2: syntax at 13
rc 1 stepped // a: SELECT k = 1 = 1 FROM t => line 2: syntax at 17
rc 1 stepped // a: SELECT k FROM t WHERE => line 2: syntax at 25
rc 1 stepped // a: INSERT INTO => line 2: syntax at 15
rc 1 stepped // a: INSERT INTO t VALUES 1 => line 2: syntax at 25
rc 1 stepped // a: INSERT INTO t VALUES () => line 2: syntax at 26
rc 1 stepped // a: INSERT INTO t (k VALUES (1) => line 2: syntax at 21
rc 1 stepped // setup: INSERT INTO t VALUES (1) x => line 2: syntax at 33
rc 1 stepped // setup: CREATE TABLE t () => line 2: syntax at 24
rc 1 stepped // setup: CREATE TABLE t (k) => line 2: syntax at 25
rc 1 stepped // setup: CREATE TABLE t (k varchar) => line 2: syntax at 26
rc 1 stepped // setup: CREATE TABLE t (k integer => line 2: syntax at 33
rc 1 stepped // setup: CREATE TABLE select (k integer) => line 2: syntax at 21
rc 1 stepped // setup: CREATE TABLE t (k integer UNIQUE NULLS NOT DISTINCT, v integer) => line 2: syntax at 41
rc 1 stepped // a: SELECT {64 -}1 FROM t => line 2: depth at 75
rc 1 stepped // a: SELECT {64 1+}1 FROM t => line 2: depth at 138
rc 1 stepped // a: SELECT {64 NOT }k FROM t => line 2: depth at 267
rc 1 stepped // setup: INSERT INTO t VALUES ({64 -}1) => line 2: depth at 94
rc 1 stepped // a: SELECT t.k FROM {8 t, }t => line 2: items at 44";

/// Lines and scripts with several reasons.
const FIRSTS: &str = "rc 1 stepped // a: SELEC // hello => line 2: syntax at 4
rc 1 stepped // a: BEGIN // # // hello // a: SELEC => line 4: line
rc 1 stepped // setup: INSERT INTO t VALUES (1) // hello => line 2: 42P01 relation \"t\" does not exist
rc 1 stepped // a: SELECT k FROM t // hello => line 3: line
rc 1 stepped // a: CREATE UNIQUE INDEX i ON t (k) => line 2: later
rc 1 stepped // setup: MERGE INTO t USING u ON t.k = u.k WHEN MATCHED THEN DELETE => line 2: later
rc 1 stepped // a: BEGIN // setup: CREATE UNIQUE INDEX i ON t (k) => line 3: later
rc 1 stepped // {32 s$: BEGIN // }z: INSERT INTO t VALUES (1) RETURNING k => line 34: later
rc 1 stepped // {32 s$: BEGIN // }go z => line 34: later
rc 1 stepped // a: INSERT INTO t VALUES (1) RETURNING k # => line 2: byte at 41
rc 1 stepped // a: INSERT INTO t VALUES (9223372036854775808) RETURNING k => line 2: literal at 26
rc 1 stepped // {64 n}: INSERT INTO t VALUES (1) RETURNING k => line 2: name at 1
rc 1 stepped // hello # => line 2: line
rc 1 stepped // hello é 'x => line 2: line
rc 1 stepped // a: BEGIN // setup: BEGIN => line 3: order
rc 1 stepped // a: BEGIN // setup: CREATE => line 3: order
rc 1 stepped // a: BEGIN // setup: INSERT INTO t VALUES (1) => line 3: order
rc 1 stepped // {32 s$: BEGIN // }z: CREATE TABLE t (k integer) => line 34: sessions
rc 1 stepped // {32 s$: BEGIN // }z: SELEC => line 34: sessions
rc 1 stepped // {32 s$: BEGIN // }{64 n}: BEGIN => line 34: sessions
rc 1 stepped // {32 s$: BEGIN // }go {64 n} => line 34: sessions
rc 1 stepped // {64 n}: CREATE TABLE t (k integer) => line 2: place
rc 1 stepped // setup: SELECT x FROM t => line 2: place
rc 1 stepped // setup: SELECT x FROM => line 2: syntax at 21
rc 1 stepped // setup: CREATE TABLE t (k integer) // setup: CREATE TABLE t (k # => line 3: byte at 26
rc 1 stepped // {64 n}: SELEC # => line 2: name at 1
rc 1 stepped // a: SELEC k # FROM t => line 2: syntax at 4
rc 1 stepped // a: SELECT # FROM t WHERE k = 'x => line 2: byte at 11
rc 1 stepped // a: SELECT 9223372036854775808 # FROM t => line 2: literal at 11
rc 1 stepped // a: SELECT 'x # FROM t => line 2: literal at 11
rc 1 stepped // a: SELECT 'x\ty FROM t => line 2: literal at 11
rc 1 stepped // a: SELECT 'it's' FROM t => line 2: syntax at 15
rc 1 stepped // a: SELECT k AS {64 n} FROM t # => line 2: name at 16
rc 1 stepped // a: {64 n} => line 2: name at 4
rc 1 stepped // a: SELECT {64 -}1 # FROM t => line 2: depth at 75
rc 1 stepped // a: SELECT {64 -}1 FROM FROM t => line 2: depth at 75
rc 1 stepped // a: SELECT FROM t WHERE {64 -}1 = 1 => line 2: syntax at 11
rc 1 stepped // a: SELECT t.k FROM {8 t, }t # => line 2: items at 44
rc 1 stepped // a: SELECT t.k FROM {8 t, }t FROM => line 2: items at 44
rc 1 stepped // a: SELECT k k FROM {8 t, }t => line 2: syntax at 13
rc 1 stepped // a: SELECT k FROM t t # => line 2: byte at 22
rc 1 stepped // a: INSERT INTO # => line 2: byte at 16
rc 1 stepped // a: SELECT k FROM 9223372036854775808 => line 2: literal at 18";

/// Scripts at their limits, and a step past them.
const LIMITS: &str =
    "rc 1 stepped // {16383 #-------------------------------------------------------------- // }{51 #} => read
rc 1 stepped // {16383 #-------------------------------------------------------------- // }{50 #}\r => read
rc 1 stepped // {16383 #-------------------------------------------------------------- // }{50 #} //  => read
rc 1 stepped // {16383 #-------------------------------------------------------------- // }{52 #} => line 0: size
rc 1 stepped // {16383 #-------------------------------------------------------------- // }{51 #}\r => line 0: size
rc 1 stepped // {16383 #-------------------------------------------------------------- // }{51 #} //  => line 0: size
{16384 #-------------------------------------------------------------- // } => line 1: header
{16384 #-------------------------------------------------------------- // }x => line 0: size
rc 1 stepped // {32 s$: BEGIN // }s1: COMMIT // S32: COMMIT => read
rc 1 stepped // {33 s$: BEGIN // } => line 34: sessions
rc 1 stepped // {33 s$: SELECT k FROM t // } => line 34: sessions
rc 1 free // setup: CREATE TABLE t (k integer) // {33 s$: INSERT INTO t VALUES ($) // } => line 35: sessions
rc 1 stepped // setup: CREATE TABLE {63 t} ({63 k} integer) // {63 n}: SELECT {63 k} AS {63 x} FROM {63 t} => read
rc 1 stepped // setup: CREATE TABLE {64 t} (k integer) => line 2: name at 21
rc 1 stepped // setup: CREATE TABLE t ({64 k} integer) => line 2: name at 24
rc 1 stepped // setup: CREATE TABLE t (v text) // setup: INSERT INTO t VALUES ('{4096 x}') => read
rc 1 stepped // setup: CREATE TABLE t (v text) // setup: INSERT INTO t VALUES ('{4097 x}') => line 3: literal at 30
rc 1 stepped // setup: CREATE TABLE t (v text) // a: INSERT INTO t VALUES ('{4096 x}') => read
rc 1 stepped // setup: CREATE TABLE t (v text) // a: INSERT INTO t VALUES ('{4097 x}') => line 3: literal at 26
rc 1 stepped // setup: CREATE TABLE t (v text) // a: INSERT INTO t VALUES ('{4096 ''}') => read
rc 1 stepped // setup: CREATE TABLE t (v text) // a: INSERT INTO t VALUES ('{4097 ''}') => line 3: literal at 26
rc 1 stepped // setup: CREATE TABLE t (v text) // a: INSERT INTO t VALUES ('{4095 x}\t') => line 3: byte at 4122
rc 1 stepped // setup: CREATE TABLE t (v text) // a: INSERT INTO t VALUES ('{4096 x}\t') => line 3: literal at 26
rc 1 stepped // setup: CREATE TABLE t (b bigint) // a: INSERT INTO t VALUES (9223372036854775807) => read
rc 1 stepped // setup: CREATE TABLE t (b bigint) // a: INSERT INTO t VALUES (9223372036854775808) => line 3: literal at 26
rc 1 stepped // setup: CREATE TABLE t (b bigint) // a: INSERT INTO t VALUES ({99 0}9223372036854775807) => read
rc 1 stepped // {64 setup: CREATE TABLE t$ (k integer) // } => read
rc 1 stepped // {65 setup: CREATE TABLE t$ (k integer) // } => line 66: 54000 too many tables
rc 1 stepped // {64 setup: CREATE TABLE t$ (k integer) // }setup: CREATE TABLE t64 (k integer) => line 66: 42P07 relation \"t64\" already exists
rc 1 stepped // {64 setup: CREATE TABLE t$ (k integer) // }setup: CREATE TABLE u (k integer, k text) => line 66: 54000 too many tables
rc 1 stepped // setup: CREATE TABLE t ({63 c$ integer, }c integer) => read
rc 1 stepped // setup: CREATE TABLE t ({64 c$ integer, }c integer) => line 2: 54000 too many columns
rc 1 stepped // setup: CREATE TABLE t ({64 c$ integer, }c1 integer) => line 2: 54000 too many columns
rc 1 stepped // setup: CREATE TABLE t ({63 c$ integer, }c1 integer) => line 2: 42701 column \"c1\" specified more than once
rc 1 stepped // setup: CREATE TABLE t (k integer) // a: SELECT {63 -}k FROM t => read
rc 1 stepped // setup: CREATE TABLE t (k integer) // a: SELECT {64 -}k FROM t => line 3: depth at 75
rc 1 stepped // setup: CREATE TABLE t (k integer) // a: SELECT {63 k+}k FROM t => read
rc 1 stepped // setup: CREATE TABLE t (k integer) // a: SELECT {64 k+}k FROM t => line 3: depth at 138
rc 1 stepped // setup: CREATE TABLE t (o boolean) // a: SELECT {63 NOT }o FROM t => read
rc 1 stepped // setup: CREATE TABLE t (o boolean) // a: SELECT {64 NOT }o FROM t => line 3: depth at 267
rc 1 stepped // setup: CREATE TABLE t (k integer) // a: SELECT {200 (}k{200 )} FROM t => read
rc 1 stepped // a: SELECT t.k FROM {7 t, }t => line 2: later
rc 1 stepped // a: SELECT t.k FROM {8 t, }t => line 2: items at 44";

/// The tables of the scripts of `INSERTS`, `SELECTS` and `CHANGES`.
const TABLE: &str =
    "rc 1 stepped // setup: CREATE TABLE t (k integer, v text, b bigint, o boolean) // ";

/// INSERTs into that table, each with what analysis answers.
const INSERTS: &str = "INSERT INTO t VALUES (1, 'x', 2, true) => fits
insert into T values (1), (NULL, 'y'); => fits
INSERT INTO t (o, K) VALUES (false, NULL) => fits
INSERT INTO t (b, k) VALUES (1, 9223372036854775807), (NULL, 2147483648) => fits
INSERT INTO t (v) VALUES (NULL || 'x') => fits
INSERT INTO t (k) VALUES (1 / 0) => fits
INSERT INTO t (k) VALUES (NULL + NULL) => fits
INSERT INTO t (o) VALUES (1 = 9223372036854775807 AND NULL = 'x' OR true <> NULL) => fits
INSERT INTO nope VALUES (1) => 42P01 relation \"nope\" does not exist
INSERT INTO Nope AS t (x, x) VALUES (y) => 42P01 relation \"nope\" does not exist
INSERT INTO t VALUES (t.k) => 42P01 relation \"t\" does not exist
INSERT INTO t AS x VALUES (x.k) => 42P01 relation \"x\" does not exist
INSERT INTO t VALUES (t.x + y) => 42P01 relation \"t\" does not exist
INSERT INTO t (X) VALUES (1) => 42703 column \"x\" does not exist
INSERT INTO t (k, x, k) VALUES (1) => 42703 column \"x\" does not exist
INSERT INTO t (x, x) VALUES (1) => 42703 column \"x\" does not exist
INSERT INTO t VALUES (k) => 42703 column \"k\" does not exist
INSERT INTO t VALUES (y + t.k) => 42703 column \"y\" does not exist
INSERT INTO t VALUES ('x' + y) => 42703 column \"y\" does not exist
INSERT INTO t (k, v, K) VALUES (1, 'x', 2) => 42701 column \"k\" specified more than once
INSERT INTO t (k, k, x) VALUES (1) => 42701 column \"k\" specified more than once
INSERT INTO t (k, v) VALUES (1) => 42601 wrong number of expressions
INSERT INTO t (k) VALUES (1, 'x') => 42601 wrong number of expressions
INSERT INTO t VALUES (1, 'x', 2, true, 3) => 42601 wrong number of expressions
INSERT INTO t (k) VALUES (1), (2, 3) => 42601 wrong number of expressions
INSERT INTO t (k) VALUES (x), (2, 3) => 42601 wrong number of expressions
INSERT INTO t VALUES (1 + 'x') => 42883 operator or function does not take these kinds
INSERT INTO t VALUES (- true) => 42883 operator or function does not take these kinds
INSERT INTO t (v) VALUES ('x' || 1) => 42883 operator or function does not take these kinds
INSERT INTO t (o) VALUES (NOT 1) => 42883 operator or function does not take these kinds
INSERT INTO t (o) VALUES (1 = '1') => 42883 operator or function does not take these kinds
INSERT INTO t VALUES (1 % true, x) => 42883 operator or function does not take these kinds
INSERT INTO t (k) VALUES ('x'), (1 * 'x') => 42883 operator or function does not take these kinds
INSERT INTO t (k) VALUES ('1') => 42804 kinds do not fit
INSERT INTO t (k) VALUES (true) => 42804 kinds do not fit
INSERT INTO t (b) VALUES ('1') => 42804 kinds do not fit
INSERT INTO t (v) VALUES (1) => 42804 kinds do not fit
INSERT INTO t (v) VALUES (NULL + NULL) => 42804 kinds do not fit
INSERT INTO t (k) VALUES (NULL || NULL) => 42804 kinds do not fit
INSERT INTO t (o) VALUES (- NULL) => 42804 kinds do not fit
INSERT INTO t (o) VALUES (1), (true) => 42804 kinds do not fit
INSERT INTO t (k) VALUES (1), (NULL IS NULL) => 42804 kinds do not fit
INSERT INTO t VALUES (1, 2) => 42804 kinds do not fit";

/// SELECTs from that table, each with what analysis answers.
const SELECTS: &str = "SELECT * FROM t => fits
select t.*, K, T.V from T where O; => fits
SELECT x.k, x.* FROM t x WHERE x.b = k => fits
SELECT k + b, v || 'x', - k % 2, NOT o FROM t WHERE k = b AND v < 'x' OR o => fits
SELECT k AS n, v AS n FROM t WHERE k IS NULL => fits
SELECT NULL FROM t WHERE NULL => fits
SELECT (k = 1) = o FROM t WHERE NOT NULL => fits
SELECT k IS DISTINCT FROM b, v IS NOT NULL FROM t => fits
SELECT k FROM nope => 42P01 relation \"nope\" does not exist
SELECT x FROM Nope AS t => 42P01 relation \"nope\" does not exist
SELECT nope.k FROM t => 42P01 relation \"nope\" does not exist
SELECT nope.* FROM t => 42P01 relation \"nope\" does not exist
SELECT t.k FROM t AS x => 42P01 relation \"t\" does not exist
SELECT t.* FROM t x => 42P01 relation \"t\" does not exist
SELECT nope.k, x FROM t => 42P01 relation \"nope\" does not exist
SELECT k FROM t WHERE nope.k = x => 42P01 relation \"nope\" does not exist
SELECT X FROM t => 42703 column \"x\" does not exist
SELECT t.x FROM t => 42703 column \"x\" does not exist
SELECT y.x FROM t y => 42703 column \"x\" does not exist
SELECT k AS n FROM t WHERE n = 1 => 42703 column \"n\" does not exist
SELECT x, nope.k FROM t => 42703 column \"x\" does not exist
SELECT x FROM t WHERE y => 42703 column \"x\" does not exist
SELECT v + x FROM t => 42703 column \"x\" does not exist
SELECT k + v FROM t => 42883 operator or function does not take these kinds
SELECT - v FROM t => 42883 operator or function does not take these kinds
SELECT k || v FROM t => 42883 operator or function does not take these kinds
SELECT NOT k FROM t => 42883 operator or function does not take these kinds
SELECT k AND o FROM t => 42883 operator or function does not take these kinds
SELECT o OR v FROM t => 42883 operator or function does not take these kinds
SELECT * FROM t WHERE k = v => 42883 operator or function does not take these kinds
SELECT * FROM t WHERE o < k => 42883 operator or function does not take these kinds
SELECT k IS DISTINCT FROM v FROM t => 42883 operator or function does not take these kinds
SELECT k / o + x FROM t => 42883 operator or function does not take these kinds
SELECT k - v FROM t WHERE x => 42883 operator or function does not take these kinds
SELECT * FROM t WHERE k AND o => 42883 operator or function does not take these kinds
SELECT * FROM t WHERE k => 42804 kinds do not fit
SELECT * FROM t WHERE v || 'x' => 42804 kinds do not fit
SELECT * FROM t WHERE NULL + NULL => 42804 kinds do not fit";

/// UPDATEs and DELETEs of that table, each with what analysis answers.
const CHANGES: &str = "UPDATE t SET k = 1 => fits
update T set K = k + 1, V = 'x' || v where o; => fits
UPDATE t AS x SET k = x.b, b = x.k WHERE x.v IS NULL => fits
UPDATE t x SET k = NULL, v = NULL, b = NULL, o = NULL => fits
UPDATE t SET k = 1 / 0 WHERE NULL => fits
UPDATE nope SET x = y, x = y WHERE 1 => 42P01 relation \"nope\" does not exist
UPDATE t SET x = nope.k => 42703 column \"x\" does not exist
UPDATE t SET k = 1, v = 'x', K = 2, x = 3 => 42601 column \"k\" is set more than once
UPDATE t SET k = y, k = 2 => 42601 column \"k\" is set more than once
UPDATE t SET x = 1, x = 2 => 42703 column \"x\" does not exist
UPDATE t AS x SET k = t.k => 42P01 relation \"t\" does not exist
UPDATE t SET v = 1, k = x => 42703 column \"x\" does not exist
UPDATE t SET v = 1 WHERE x => 42703 column \"x\" does not exist
UPDATE t SET k = k + v WHERE k => 42883 operator or function does not take these kinds
UPDATE t SET v = 1 WHERE o AND k => 42883 operator or function does not take these kinds
UPDATE t SET k = 1 WHERE k => 42804 kinds do not fit
UPDATE t SET k = v => 42804 kinds do not fit
UPDATE t SET k = 1, o = k WHERE o => 42804 kinds do not fit
DELETE FROM t => fits
delete from t as x where x.k = k and y is null => 42703 column \"y\" does not exist
DELETE FROM t WHERE t.k = 1 OR NULL; => fits
DELETE FROM nope WHERE x => 42P01 relation \"nope\" does not exist
DELETE FROM t x WHERE t.k = 1 => 42P01 relation \"t\" does not exist
DELETE FROM t WHERE - v IS NULL => 42883 operator or function does not take these kinds
DELETE FROM t WHERE k => 42804 kinds do not fit";

/// Declarations behind that of `t`.
const DECLARATIONS: &str =
    "CREATE TABLE u (k integer, v text, b bigint, o boolean, i int, p bool) => fits
CREATE TABLE k (t integer); => fits
CREATE TABLE t (x integer) => 42P07 relation \"t\" already exists
create table T (x integer, x text) => 42P07 relation \"t\" already exists
CREATE TABLE u (k integer, v text, K bigint) => 42701 column \"k\" specified more than once
CREATE TABLE u (k integer, v text, v text, k text) => 42701 column \"v\" specified more than once";

/// Scripts with their parts: the mode, the sessions and the tables, and line by line what setup
/// stores, as how many rows into which columns of which table, and what a session is given.
const PARTS: &str = "rc 1 stepped => stepped
rc 1 free // # // \t //  => free
rc 1 stepped // setup: CREATE TABLE t (k integer) => stepped, table t k integer
rc 1 stepped // a: BEGIN => stepped, a, 2 session 0 begin
rc 1 free // b: BEGIN WORK // A: END // B: COMMIT TRANSACTION // a: ABORT // KEY: ROLLBACK WORK => free, b, a, key, 2 session 0 begin, 3 session 1 commit, 4 session 0 commit, 5 session 1 rollback, 6 session 2 rollback
rc 1 stepped // setup: CREATE TABLE T (K int, v TEXT) // # // setup: INSERT INTO t (V, k) VALUES ('x', 1), ('y', 2) // setup: CREATE TABLE u (o bool, b bigint) // setup: INSERT INTO u VALUES (true) => stepped, table t k integer v text, table u o boolean b bigint, 4 setup insert 2 into 0 1 0, 6 setup insert 1 into 1 0 1
rc 1 stepped // a: INSERT INTO t VALUES (1) // b: SELECT x FROM t // c: SELECT k FROM u => stepped, a, b, c, 2 session 0 42P01 relation \"t\" does not exist, 3 session 1 42P01 relation \"t\" does not exist, 4 session 2 42P01 relation \"u\" does not exist
rc 1 stepped // setup: CREATE TABLE t (k integer, v integer) // a: BEGIN // a: INSERT INTO t VALUES (1, 10) // b: SELECT * FROM t // a: SELECT k + 1, v FROM t WHERE k = 1 // a: COMMIT // b: SELECT * FROM t => stepped, a, b, table t k integer v integer, 3 session 0 begin, 4 session 0 insert 1 into 0 0 1, 5 session 1 select 2 from 0, 6 session 0 select 2 from 0 where, 7 session 0 commit, 8 session 1 select 2 from 0
rc 1 stepped // setup: CREATE TABLE t (k integer, v integer) // a: BEGIN // a: INSERT INTO t VALUES (2147483647 + 1, 1) // a: SELECT * FROM t // a: COMMIT // a: SELECT x FROM t => stepped, a, table t k integer v integer, 3 session 0 begin, 4 session 0 insert 1 into 0 0 1, 5 session 0 select 2 from 0, 6 session 0 commit, 7 session 0 42703 column \"x\" does not exist
rc 1 stepped // setup: CREATE TABLE t (k integer, v integer) // a: UPDATE t SET v = k, k = 2 WHERE k = 1 // a: UPDATE t SET v = 1 // b: DELETE FROM t WHERE v = 1 // b: DELETE FROM t => stepped, a, b, table t k integer v integer, 3 session 0 update 0 1 0 where, 4 session 0 update 0 1, 5 session 1 delete from 0 where, 6 session 1 delete from 0";

/// Pairs of scripts that say the same.
const ALIKE: &str = "rc 1 stepped // a: BEGIN //  => rc 1 stepped // a: BEGIN
rc 1 stepped\r // setup: CREATE TABLE t (k integer, v integer)\r // a: INSERT INTO t VALUES (1, 10)\r //  => rc 1 stepped // setup: CREATE TABLE t (k integer, v integer) // a: INSERT INTO t VALUES (1, 10)
rc 1 stepped // a: BEGIN\r => rc 1 stepped // a: BEGIN
 rc\t1  stepped\t // \ta \t: BEGIN ;\t => rc 1 stepped // a: BEGIN
rc 1 free // a:BEGIN; => rc 1 free // a: BEGIN
rc 1 free // A: bEgIn => rc 1 free // a: BEGIN
rc 1 free // # \x01 \x7f é \r \" // a: BEGIN => rc 1 free // \t // a: BEGIN
rc 1 stepped //  setup\t:create table T(K int,v bool); // a: BEGIN => rc 1 stepped // setup: CREATE TABLE t (k integer, v boolean) // a: BEGIN
rc 1 stepped // setup: CREATE TABLE t (k integer, v integer) // a: INSERT INTO t VALUES (1, 007) => rc 1 stepped // setup: CREATE TABLE t (k integer, v integer) // a: INSERT INTO T(k,V)VALUES(1,7)
rc 1 stepped // setup: CREATE TABLE t (k integer, v integer) // a: SELECT * FROM t AS x WHERE x.k=1 => rc 1 stepped // setup: CREATE TABLE t (k integer, v integer) // a: select\tk,t.v from t where (k) = 1;
rc 1 stepped // setup: CREATE TABLE t (k integer) // a: UPDATE t AS x SET k = x.k + 1 // a: DELETE FROM t x WHERE x.k=1 => rc 1 stepped // setup: CREATE TABLE t (k integer) // a: update T set K=(k+1); // a: delete from t where t.k = 1
rc 1 stepped // a: BEGIN TRANSACTION ISOLATION LEVEL READ COMMITTED // a: END => rc 1 stepped // a: BEGIN // a: COMMIT WORK";

/// What a row of a table writes, and what it wants.
fn cut(row: &str) -> Result<(&str, &str), AllocError> {
    row.split_once(" => ").ok_or(AllocError)
}

/// Nothing where a row got what it wants, and else what it got.
fn difference(alloc: Global, wanted: &str, got: &[u8]) -> Result<Option<String>, AllocError> {
    if got == wanted.as_bytes() {
        return Ok(None);
    }
    let got = str::from_utf8(got).unwrap_or("what is no text");
    Ok(Some(String::from_str(alloc, got)?))
}

/// What reading the script of a row answers, unless it is what is wanted.
fn answers_otherwise(alloc: Global, row: &str, wanted: &str) -> Result<Option<String>, AllocError> {
    let script = script_of(alloc, row)?;
    let text = told(alloc, read_script(alloc, script.as_bytes()))?;
    difference(alloc, wanted, text.as_slice())
}

/// The first row of a table whose script is not answered as the row says, and its answer.
fn first_wrong(alloc: Global, table: &str) -> Result<Option<(&str, String)>, AllocError> {
    for row in table.lines() {
        let (script, wanted) = cut(row)?;
        if let Some(got) = answers_otherwise(alloc, script, wanted)? {
            return Ok(Some((row, got)));
        }
    }
    Ok(None)
}

/// The answer to a statement behind the table, on a line that begins so, unless it is what is
/// wanted; `before` stands before its error.
fn is_analysed_otherwise(
    alloc: Global,
    begin: &str,
    statement: &str,
    before: &str,
    wanted: &str,
) -> Result<Option<String>, AllocError> {
    let row = format!(in alloc; "{TABLE}{begin}{statement}")?;
    if wanted == "fits" {
        return answers_otherwise(alloc, row.as_str(), "read");
    }
    let wanted = format!(in alloc; "{before}line 3: {wanted}")?;
    answers_otherwise(alloc, row.as_str(), wanted.as_str())
}

/// The first statement of a table that is not analysed as its row says, and the answer. Given to a
/// session, the script is read and the line has the error.
fn first_wrong_of_session(
    alloc: Global,
    table: &str,
) -> Result<Option<(&str, String)>, AllocError> {
    for row in table.lines() {
        let (statement, wanted) = cut(row)?;
        if let Some(got) = is_analysed_otherwise(alloc, "a: ", statement, "read, ", wanted)? {
            return Ok(Some((row, got)));
        }
    }
    Ok(None)
}

/// The first statement of a table that is not analysed as its row says, and the answer. On a setup
/// line the error refuses the line.
fn first_wrong_of_setup(alloc: Global, table: &str) -> Result<Option<(&str, String)>, AllocError> {
    for row in table.lines() {
        let (statement, wanted) = cut(row)?;
        if let Some(got) = is_analysed_otherwise(alloc, "setup: ", statement, "", wanted)? {
            return Ok(Some((row, got)));
        }
    }
    Ok(None)
}

/// The script that a row says; a refused one ends the test.
fn read(alloc: Global, row: &str) -> Result<Script, AllocError> {
    let script = script_of(alloc, row)?;
    match read_script(alloc, script.as_bytes()) {
        Ok(script) => Ok(script),
        Err(fault) => {
            drop(fault);
            Err(AllocError)
        }
    }
}

/// The parts of the script of a row, unless they are those that are wanted.
fn has_other_parts(alloc: Global, row: &str, wanted: &str) -> Result<Option<String>, AllocError> {
    let script = read(alloc, row)?;
    let text = parts(alloc, &script);
    drop(script);
    difference(alloc, wanted, text?.as_slice())
}

/// Whether the scripts of two rows are the same.
fn are_same(alloc: Global, a: &str, b: &str) -> Result<bool, AllocError> {
    let a = read(alloc, a)?;
    let b = read(alloc, b)?;
    let is_same = a.is_same(&b);
    drop(a);
    drop(b);
    Ok(is_same)
}

#[test]
fn headers_are_read(rt: HostRuntime) -> Result<(), AllocError> {
    assert_eq!(rt; first_wrong(rt.alloc(), HEADERS)?, None);
    Ok(())
}

#[test]
fn forms_are_refused(rt: HostRuntime) -> Result<(), AllocError> {
    assert_eq!(rt; first_wrong(rt.alloc(), FORMS)?, None);
    Ok(())
}

#[test]
fn faults_have_their_places(rt: HostRuntime) -> Result<(), AllocError> {
    assert_eq!(rt; first_wrong(rt.alloc(), PLACES)?, None);
    Ok(())
}

#[test]
fn the_first_reason_is_told(rt: HostRuntime) -> Result<(), AllocError> {
    assert_eq!(rt; first_wrong(rt.alloc(), FIRSTS)?, None);
    Ok(())
}

#[test]
fn limits_are_kept(rt: HostRuntime) -> Result<(), AllocError> {
    assert_eq!(rt; first_wrong(rt.alloc(), LIMITS)?, None);
    Ok(())
}

#[test]
fn rows_of_setup_are_analysed(rt: HostRuntime) -> Result<(), AllocError> {
    assert_eq!(rt; first_wrong_of_setup(rt.alloc(), INSERTS)?, None);
    Ok(())
}

#[test]
fn declarations_are_analysed(rt: HostRuntime) -> Result<(), AllocError> {
    assert_eq!(rt; first_wrong_of_setup(rt.alloc(), DECLARATIONS)?, None);
    Ok(())
}

#[test]
fn inserts_are_analysed(rt: HostRuntime) -> Result<(), AllocError> {
    assert_eq!(rt; first_wrong_of_session(rt.alloc(), INSERTS)?, None);
    Ok(())
}

#[test]
fn selects_are_analysed(rt: HostRuntime) -> Result<(), AllocError> {
    assert_eq!(rt; first_wrong_of_session(rt.alloc(), SELECTS)?, None);
    Ok(())
}

#[test]
fn changes_are_analysed(rt: HostRuntime) -> Result<(), AllocError> {
    assert_eq!(rt; first_wrong_of_session(rt.alloc(), CHANGES)?, None);
    Ok(())
}

#[test]
fn scripts_have_their_parts(rt: HostRuntime) -> Result<(), AllocError> {
    for row in PARTS.lines() {
        let (script, wanted) = cut(row)?;
        assert_eq!(rt;
            (row, has_other_parts(rt.alloc(), script, wanted)?),
            (row, None)
        );
    }
    Ok(())
}

#[test]
fn spellings_do_not_matter(rt: HostRuntime) -> Result<(), AllocError> {
    for row in ALIKE.lines() {
        let (script, other) = cut(row)?;
        assert!(rt; are_same(rt.alloc(), script, other)?, "{row}");
    }
    Ok(())
}

#[test]
fn examples_of_the_errors_page(rt: HostRuntime) -> Result<(), AllocError> {
    assert_eq!(rt; first_wrong(rt.alloc(), EXAMPLES)?, None);
    Ok(())
}
