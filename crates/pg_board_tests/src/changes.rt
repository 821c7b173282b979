//! Scripts of UPDATE and DELETE, run to their end in the stepped order.
use crate::runs::first_wrong;
use std::alloc::AllocError;

/// Scripts, each with its journal and then its tables.
const CHANGES: &str = "\
rc 1 stepped
setup: CREATE TABLE t (k integer, v integer)
setup: INSERT INTO t VALUES (1, 10)
a: BEGIN
a: UPDATE t SET v = v + 1
b: UPDATE t SET v = v + 1
a: COMMIT
=>
a replied BEGIN
a snapped 0
a found 1
a locked t 1 no key update
a updated t 1
a replied UPDATE 1
b snapped 0
b found 1
b waits a
a committed
a replied COMMIT
b locked t 1 no key update
b updated t 1
b committed
b replied UPDATE 1
a closed
b closed
table t
1|12

rc 1 stepped
setup: CREATE TABLE t (k integer, v integer)
setup: INSERT INTO t VALUES (1, 10)
a: BEGIN
a: UPDATE t SET v = v + 1
b: DELETE FROM t WHERE v = 10
a: COMMIT
=>
a replied BEGIN
a snapped 0
a found 1
a locked t 1 no key update
a updated t 1
a replied UPDATE 1
b snapped 0
b found 1
b waits a
a committed
a replied COMMIT
b locked t 1 update
b passed
b committed
b replied DELETE 0
a closed
b closed
table t
1|11

rc 1 stepped
setup: CREATE TABLE t (k integer, v integer)
setup: INSERT INTO t VALUES (1, 10)
a: BEGIN
a: UPDATE t SET v = v + 1
b: UPDATE t SET v = v + 1
a: ROLLBACK
=>
a replied BEGIN
a snapped 0
a found 1
a locked t 1 no key update
a updated t 1
a replied UPDATE 1
b snapped 0
b found 1
b waits a
a rolled back
a replied ROLLBACK
b locked t 1 no key update
b updated t 1
b committed
b replied UPDATE 1
a closed
b closed
table t
1|11

rc 1 stepped
setup: CREATE TABLE t (k integer, v integer)
setup: INSERT INTO t VALUES (1, 10)
a: BEGIN
a: UPDATE t SET v = v + 1
b: UPDATE t SET v = v + 1
c: UPDATE t SET v = v + 1
a: COMMIT
=>
a replied BEGIN
a snapped 0
a found 1
a locked t 1 no key update
a updated t 1
a replied UPDATE 1
b snapped 0
b found 1
b waits a
c snapped 0
c found 1
c waits a
a committed
a replied COMMIT
b locked t 1 no key update
b updated t 1
b committed
b replied UPDATE 1
c locked t 1 no key update
c updated t 1
c committed
c replied UPDATE 1
a closed
b closed
c closed
table t
1|13

rc 1 stepped
setup: CREATE TABLE t (k integer, v integer)
setup: INSERT INTO t VALUES (1, 10), (2, 20)
a: BEGIN
b: BEGIN
a: UPDATE t SET v = 11 WHERE k = 1
b: UPDATE t SET v = 21 WHERE k = 2
a: UPDATE t SET v = 12 WHERE k = 2
b: UPDATE t SET v = 22 WHERE k = 1
a: COMMIT
b: COMMIT
=>
a replied BEGIN
b replied BEGIN
a snapped 0
a found 1
a locked t 1 no key update
a updated t 1
a replied UPDATE 1
b snapped 0
b found 1
b locked t 2 no key update
b updated t 2
b replied UPDATE 1
a snapped 0
a found 1
a waits b
b snapped 0
b found 1
b failed 40P01 deadlock detected, cycle b waits for a, a waits for b
a locked t 2 no key update
a updated t 2
a replied UPDATE 1
a committed
a replied COMMIT
b replied ROLLBACK
a closed
b closed
table t
1|11
2|12

rc 1 stepped
setup: CREATE TABLE t (k integer, v integer)
setup: INSERT INTO t VALUES (1, 10), (2, 20)
a: BEGIN
a: DELETE FROM t WHERE k = 1
a: SELECT k FROM t
b: SELECT k FROM t
a: UPDATE t SET v = k / (k - 2)
a: ROLLBACK
b: DELETE FROM t
=>
a replied BEGIN
a snapped 0
a found 1
a locked t 1 update
a deleted t 1
a replied DELETE 1
a snapped 0
a replied SELECT 1 (2)
b snapped 0
b committed
b replied SELECT 2 (1) (2)
a snapped 1
a found 1
a failed 22012 division by zero
a replied ROLLBACK
b snapped 1
b found 1
b locked t 1 update
b deleted t 1
b found 2
b locked t 2 update
b deleted t 2
b committed
b replied DELETE 2
a closed
b closed
table t

rc 1 stepped
setup: CREATE TABLE t (k integer, v integer)
setup: INSERT INTO t VALUES (1, 10), (2, 20)
a: UPDATE t SET v = v + 1 WHERE v = 20
a: UPDATE t SET k = NULL WHERE v = 10
a: DELETE FROM t WHERE v = 30
a: UPDATE t SET v = v / 0 WHERE v = 10
a: DELETE FROM t WHERE v = 21
=>
a snapped 0
a found 1
a locked t 2 no key update
a updated t 2
a committed
a replied UPDATE 1
a snapped 1
a found 1
a locked t 1 no key update
a updated t 1
a committed
a replied UPDATE 1
a snapped 2
a committed
a replied DELETE 0
a snapped 3
a found 1
a failed 22012 division by zero
a snapped 3
a found 1
a locked t 2 update
a deleted t 2
a committed
a replied DELETE 1
a closed
table t
null|10

rc 1 stepped
setup: CREATE TABLE t (k integer, v integer)
setup: INSERT INTO t VALUES (1, 10), (2, 20)
a: BEGIN
a: DELETE FROM t WHERE v = 10
b: UPDATE t SET v = v + 5 WHERE v = 10
a: ROLLBACK
=>
a replied BEGIN
a snapped 0
a found 1
a locked t 1 update
a deleted t 1
a replied DELETE 1
b snapped 0
b found 1
b waits a
a rolled back
a replied ROLLBACK
b locked t 1 no key update
b updated t 1
b committed
b replied UPDATE 1
a closed
b closed
table t
1|15
2|20

rc 1 stepped
setup: CREATE TABLE t (k integer, v integer)
setup: INSERT INTO t VALUES (1, 10), (2, 20)
a: BEGIN
a: DELETE FROM t WHERE v = 10
b: UPDATE t SET v = v + 5
a: COMMIT
=>
a replied BEGIN
a snapped 0
a found 1
a locked t 1 update
a deleted t 1
a replied DELETE 1
b snapped 0
b found 1
b waits a
a committed
a replied COMMIT
b passed
b found 2
b locked t 2 no key update
b updated t 2
b committed
b replied UPDATE 1
a closed
b closed
table t
2|25

rc 1 stepped
setup: CREATE TABLE t (k integer, v integer)
setup: INSERT INTO t VALUES (1, 10), (2, 20)
a: BEGIN
a: UPDATE t SET v = v + 1 WHERE v = 10
b: UPDATE t SET v = v + 5 WHERE v = 10
a: COMMIT
=>
a replied BEGIN
a snapped 0
a found 1
a locked t 1 no key update
a updated t 1
a replied UPDATE 1
b snapped 0
b found 1
b waits a
a committed
a replied COMMIT
b locked t 1 no key update
b passed
b committed
b replied UPDATE 0
a closed
b closed
table t
1|11
2|20

rc 1 stepped
setup: CREATE TABLE t (k integer, v integer)
setup: INSERT INTO t VALUES (1, 10), (2, 20)
a: BEGIN
a: DELETE FROM t WHERE v = 10
b: DELETE FROM t WHERE v = 10
a: COMMIT
=>
a replied BEGIN
a snapped 0
a found 1
a locked t 1 update
a deleted t 1
a replied DELETE 1
b snapped 0
b found 1
b waits a
a committed
a replied COMMIT
b passed
b committed
b replied DELETE 0
a closed
b closed
table t
2|20";

#[test]
fn changes_are_run(rt: HostRuntime) -> Result<(), AllocError> {
    assert_eq!(rt; first_wrong(rt.alloc(), CHANGES)?, None);
    Ok(())
}
