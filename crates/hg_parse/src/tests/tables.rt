//! The table of lines, by what they are read as: each rule of the grammar, each refusal, and each limit at
//! its edge and one above. Worked out by hand from the grammar.

/// Lines that are read as nothing.
pub const BLANKS: &str = "
 \t 
-- x
  -- 'open
--
-- select a from t
\t\t-- # \" 1a
";

/// Lines that are read as a statement.
pub const STATEMENTS: &str = "create table t (a integer)
CREATE TABLE T (A INT, B VARCHAR(255))
create table t (a int not null primary key unique)
create table t (a int unique not null);
create table t (a varchar(1)) -- end
create index i on t (a)
create unique index i on t (a, b)
insert into t values (1)
insert into t (a, b) values (1, 'x'), (null, -2)
insert into t values (+1, 'it''s', '')
insert into t values (1, 2), (3)
update t set a = 1
update t set a = a + 1, b = 'x' where c is null
delete from t
delete from t where a = 1 or not b
vacuum t
select * from t
select all * from t
select distinct a from t
select a as b, t.c from t
select a from t u
select a from t as u, v
select a from t cross join u
select a from t join u on t.a = u.a
select a from t inner join u on a = b where c = d
select count(*) from t
select sum(a), min(b), max(c), count(d) from t group by e, t.f having count(*) > 1
select a from t order by 1, b desc, t.c asc
open c for select * from t
start c 1
work 1000000000
fetch c 1
close c
pool 16
pool 64
mpl 1
mpl 16
show memory
show memory;
SHOW MEMORY -- x
select - a from t
select + a from t
select a from t where a between 1 and 2 and b
select a from t where a not between b and c
select a from t where a in (1, 2)
select a from t where a not in (1)
select a from t where a is not null
select a from t where (a = 1) = (b)
select a - b - c from t
select a from t where not a = 1 and b
select 'a--b' from t
select a from t where a <> 1 or a != 2
select a from t where a <= 1 and a >= 2 and a < 3 and a > 4
select open from open open
select for from for for
select start from start start
select work from work work
select fetch from fetch fetch
select close from close close
select vacuum from vacuum vacuum
select pool from pool pool
select mpl from mpl mpl
select show from show show
select memory from memory memory
create table open (for int)
open open for select start from work as close
start start 1
close close
vacuum vacuum
fetch fetch 2
insert into pool (mpl) values (1)
insert into t values (99999999999999999999999999999999999999)
insert into t values (-000000000000000000000000000000000000000000001)
select a from t order by 4294967295
select a from t order by 0
vacuum aaaaaaaaaaaaaaaaaaaaaaaaaaaaaa
insert into t values ('xxxxxxxxxxxxxxxxxxxxxxxxxxxxxxxxxxxxxxxxxxxxxxxxxxxxxxxxxxxxxxxxxxxxxxxxxxxxxxxxxxxxxxxxxxxxxxxxxxxxxxxxxxxxxxxxxxxxxxxxxxxxxxxxxxxxxxxxxxxxxxxxxxxxxxxxxxxxxxxxxxxxxxxxxxxxxxxxxxxxxxxxxxxxxxxxxxxxxxxxxxxxxxxxxxxxxxxxxxxxxxxxxxxxxxxxxxxxxxxxxxxxxxxxxxxxxxx')
create table t (a int, a int, a int, a int, a int, a int, a int, a int, a int, a int, a int, a int, a int, a int, a int, a int)
insert into t values (1), (1), (1), (1), (1), (1), (1), (1), (1), (1), (1), (1), (1), (1), (1), (1), (1), (1), (1), (1), (1), (1), (1), (1), (1), (1), (1), (1), (1), (1), (1), (1), (1), (1), (1), (1), (1), (1), (1), (1), (1), (1), (1), (1), (1), (1), (1), (1), (1), (1), (1), (1), (1), (1), (1), (1), (1), (1), (1), (1), (1), (1), (1), (1)
select a from t, t, t, t
select a, a, a, a, a, a, a, a, a, a, a, a, a, a, a, a from t
select a from t group by a, a, a, a, a, a, a, a, a, a, a, a, a, a, a, a
select a from t order by 1, 1, 1, 1, 1, 1, 1, 1
select a + a + a + a + a + a + a + a + a + a + a + a + a + a + a + a + a + a + a + a + a + a + a + a + a + a + a + a + a + a + a + a + a + a + a + a + a + a + a + a + a + a + a + a + a + a + a + a from t
select - a + a + a + a + a + a + a + a + a + a + a + a + a + a + a + a + a + a + a + a + a + a + a + a + a + a + a + a + a + a + a + a + a + a + a + a + a + a + a + a + a + a + a + a + a + a + a + a from t
select ((((((((((((((((((((((((((((((((a)))))))))))))))))))))))))))))))) from t
select (((((((((((((((((((((((((((((((count(a)))))))))))))))))))))))))))))))) from t
insert into t values ('a--b') -- 'open
insert into t values ('''', '''a''', 'a''''b', '-- ;')
select 'it''s' as open, '(' from t where '<>=' = 'a.b.c'
select a from t;-- b
select a from t ;
select(a)from t where(a)=(1)and(b)<>(2)
select a-1 from t
select a+-1, a-+1, a*-b, -(-a) from t
select - a * b + c - d from t
select null, + null, - null from t where null
select a from t where a = 1 or b = 2 and not c = 3 or d
select a from t where (not a) = (b or c)
select a from t where not a between b + 1 and - c or not b not in (a, b + 1, (c))
select a from t where count(*) > 1 and sum(a + b) is null
select a from t where a is null and b is not null and not c is null
select a = b, a in (1), a between 1 and 2, not a, a is null from t
select * from a b cross join c as d inner join e f on g = h, i where j
select a from t join u on t.a = u.a or b join v w on c
select a from t where a group by a having b order by a
select t.a from t order by t.a asc, 1 desc, 2 asc
select sum(count(a)), max(min(- a)) from t
update t set a = null, b = count(*), c = (a or b) where not a
delete from t where a in (b, 'c', null, - 1)
open c for select distinct a from t where b order by 1
create table t (a int primary key not null unique, b integer, c varchar(0255) unique primary key)
create table _ (_1 int, a_b int, A9 int)
\tvacuum\tt\t
pool 0000000000000000000000000000000000000000000000064
start c 1000000000
fetch c 0001
create index i on t (a, a, a, a, a, a, a, a, a, a, a, a, a, a, a, a)
insert into t (a, a, a, a, a, a, a, a, a, a, a, a, a, a, a, a) values (1)
update t set a = 1, a = 1, a = 1, a = 1, a = 1, a = 1, a = 1, a = 1, a = 1, a = 1, a = 1, a = 1, a = 1, a = 1, a = 1, a = 1
select a between 1 and 2, a between 1 and 2, a between 1 and 2, a between 1 and 2, a between 1 and 2, a between 1 and 2, a between 1 and 2, a between 1 and 2, a between 1 and 2, a between 1 and 2, a between 1 and 2, a between 1 and 2, a between 1 and 2, a between 1 and 2, a between 1 and 2, a between 1 and 2 from t
select a, b from t where a not in (1, 1, 1, 1, 1, 1, 1, 1, 1, 1, 1, 1, 1, 1, 1, 1, 1, 1, 1, 1, 1, 1, 1, 1, 1, 1, 1, 1, 1, 1, 1)
select a, a, a, a, a, a, a, a, a, a, a, a, a, a, a, a from t, t, t, t group by a, a, a, a, a, a, a, a, a, a, a, a, a, a, a, a order by a, a, a, a, a, a, a, a
delete from t where a + a + a + a + a + a + a + a + a + a + a + a + a + a + a + a + a + a + a + a + a + a + a + a + a + a + a + a + a + a + a + a + a + a + a + a + a + a + a + a + a + a + a + a + a + a + a + a is null
insert into t values ('xxxxxxxxxxxxxxxxxxxxxxxxxxxxxxxxxxxxxxxxxxxxxxxxxxxxxxxxxxxxxxxxxxxxxxxxxxxxxxxxxxxxxxxxxxxxxxxxxxxxxxxxxxxxxxxxxxxxxxxxxxxxxxxxxxxxxxxxxxxxxxxxxxxxxxxxxxxxxxxxxxxxxxxxxxxxxxxxxxxxxxxxxxxxxxxxxxxxxxxxxxxxxxxxxxxxxxxxxxxxxxxxxxxxxxxxxxxxxxxxxxxxxxxxxxxxxxx', '''''''''''''''''''''''''''''''''''''''''''''''''''''''''''''''''''''''''''''''''''''''''''''''''''''''''''''''''''''''''''''''''''''''''''''''''''''''''''''''''''''''''''''''''''''''''''''''''''''''''''''''''''''''''''''''''''''''''''''''''''''''''''''''''''''''''''''''''''''''''''''''''''''''''''''''''''''''''''''''''''''''''''''''''''''''''''''''''''''''''''''''''''''''''''''''''''''''''''''''''''''''''''''''''''''''''''''''''''''''''''''''''''''''''''''''''''''''''''''''''''''''''''''''''''''''''''''''')
open aaaaaaaaaaaaaaaaaaaaaaaaaaaaaa for select aaaaaaaaaaaaaaaaaaaaaaaaaaaaaa.aaaaaaaaaaaaaaaaaaaaaaaaaaaaaa as aaaaaaaaaaaaaaaaaaaaaaaaaaaaaa from aaaaaaaaaaaaaaaaaaaaaaaaaaaaaa aaaaaaaaaaaaaaaaaaaaaaaaaaaaaa
select a from t where ((((((((((((((((((((((((((((((((a)))))))))))))))))))))))))))))))) = ((((((((((((((((((((((((((((((((b))))))))))))))))))))))))))))))))
select min(min(min(min(min(min(min(min(min(min(min(min(min(min(min(min(min(min(min(min(min(min(min(min(min(min(min(min(min(min(min(min(a)))))))))))))))))))))))))))))))) from t
select (((((((((((((((((((((((((((((((count(*)))))))))))))))))))))))))))))))) from t
select a from t where a in (((((((((((((((((((((((((((((((((b)))))))))))))))))))))))))))))))))";

/// Lines that are not in the grammar.
pub const NO_STATEMENTS: &str = ";
a
1
'x'
create
create t (a int)
create table t ()
create table t (a)
create table t (a int,)
create table t (a int not null not null)
create table t (a int unique unique)
create table t (a int primary key primary key)
create table t (a varchar)
create table t (a varchar())
create table t (a varchar(-1))
create table table (a int)
create index i on t ()
create index on t (a)
create unique i on t (a)
insert into t values
insert into t values ()
insert into t () values (1)
insert into t values (1),
insert into t values (a)
insert into t values (- - 1)
insert into t values (1 + 1)
insert t values (1)
update t set
update t set a
update t set a = 1,
update t a = 1
delete t
delete from t where
select
select from t
select a
select a from
select a from t where
select * , a from t
select a, from t
select a from t group a
select a from t group by 1
select a from t order by
select a from t order by -1
select a from t order 1
select a b from t
select a from t join u
select a from t cross join u on a
select a from t left join u on a = b
select a from t as
select a.b.c from t
select .. from t
select a from t where a <>= b
select a from t where not not a
select a from t where a = b = c
select a from t where a in ()
select a from t where a in 1
select a from t where a between 1
select a from t where a between 1 or 2
select a from t where a is 1
select a from t where a not 1
select count(*, a) from t
select sum(*) from t
select count() from t
select (a from t
select a) from t
select 1a from t
select a from t; ;
select a from t; x
select a; from t
select a from t 'open
select a from t where a == b
select - - a from t
select a + from t
select a # from t
select \"a\" from t
open c
open c for
open c select * from t
open c for insert into t values (1)
start c
start 1
work
work c
fetch c
close
close 1
pool
pool c
mpl
show
show tables
vacuum
show memory memory
vacuum t u
select all distinct a from t
update t set a = 1 where b where c
vacuum all
vacuum and
vacuum as
vacuum asc
vacuum between
vacuum bigint
vacuum by
vacuum count
vacuum create
vacuum cross
vacuum delete
vacuum desc
vacuum distinct
vacuum exists
vacuum from
vacuum group
vacuum having
vacuum in
vacuum index
vacuum inner
vacuum insert
vacuum int
vacuum integer
vacuum into
vacuum is
vacuum join
vacuum key
vacuum left
vacuum max
vacuum min
vacuum not
vacuum null
vacuum on
vacuum or
vacuum order
vacuum outer
vacuum primary
vacuum select
vacuum set
vacuum sum
vacuum table
vacuum unique
vacuum update
vacuum values
vacuum varchar
vacuum where
vacuum aaaaaaaaaaaaaaaaaaaaaaaaaaaaaaa x
pool 1 aaaaaaaaaaaaaaaaaaaaaaaaaaaaaaa
create table t (a int, a int, a int, a int, a int, a int, a int, a int, a int, a int, a int, a int, a int, a int, a int, a int, a int) x
select a + a + a + a + a + a + a + a + a + a + a + a + a + a + a + a + a + a + a + a + a + a + a + a + a + a + a + a + a + a + a + a + a + a + a + a + a + a + a + a + a + a + a + a + a + a + a + a + a from t where
select (((((((((((((((((((((((((((((((((a))))))))))))))))))))))))))))))))) from t
select ((((((((((((((((((((((((((((((((count(*))))))))))))))))))))))))))))))))) from t
;;
-
+
(
)
,
.
*
=
<
!
!= a
a;
- - x
select ;
select 'a' -- b from t
select a fro-- m t
select 'open from t
select 'it'''s' from t
select '' '' from t
select '\t' from t
insert into t values ('')')
insert into t values ('a';)
insert into t values (1); insert into t values (2)
insert into t (a,) values (1)
insert into t (a, 1) values (1)
insert into t values (1,)
insert into t values (,1)
insert into t values (1) (2)
insert into t values ((1))
insert into t values (null + 1)
insert into t values (- 'x')
insert into t values (- null)
insert into t values (a.b)
insert into t.u values (1)
create index i on t a
create unique table t (a int)
create table t (a int b int)
create table t (a int not)
create table t (a int primary)
create table t (a int key)
create table t (a int null)
create table t (a bigint)
create table t (a varchar(a))
create table t (a varchar(1) (2))
create table t (a int primary key unique primary key)
create table t a int
create table t (t.a int)
update t set t.a = 1
update t set a = 1 b = 2
update t set a == 1
update t set a = b = 1 = c
update t set where a
delete from t where a group by b
delete from t, u
select a from t group by
select a from t group by a + 1
select a from t group by a,
select a from t having
select a from t having a group by b
select a from t where a where b
select a from t order by a group by b
select a from t order by a where b
select a from t order by a + 1
select a from t order by - a
select a from t order by 'a'
select a from t order by a asc desc
select a from t order by a.b.c
select a from t where a between 1 and
select a from t where a not between 1
select a from t where a between 1, 2
select a from t where a between and 2
select a from t where a in (1
select a from t where a in (1,)
select a from t where a in (b or c)
select a from t where a in (not b)
select a from t where a not in ()
select a from t where a is not
select a from t where a is not not null
select a from t where a not is null
select a from t where a is null is null
select a from t where a in (1) in (2)
select a from t where a between 1 and 2 between 3 and 4
select a from t where a < b < c
select a from t where a < not b
select a from t where a < > b
select a from t where a ! = b
select a from t where a =< b
select a from t where a >< b
select a from t where and a
select a from t where a and
select a from t where a or or b
select a from t where not
select a from t where ()
select a from t where (a, b) = c
select not not a from t
select + + a from t
select - + a from t
select a * * b from t
select a * from t
select * a from t
select *, * from t
select t.* from t
select a as from t
select a as b.c from t
select a as 1 from t
select a.1 from t
select a. from t
select .a from t
select 1.5 from t
select 1_ from t
select 1e5 from t
select count a from t
select count(*) from
select count(* ) ( from t
select count(a, b) from t
select min(*) from t
select max() from t
select sum(distinct a) from t
select (select a from t) from t
select a from (select a from t)
select a from t u v
select a from t as u v
select a from t,
select a from t, , u
select a from t cross u
select a from t cross join
select a from t inner u on a
select a from t inner join u
select a from t join u on
select a from t outer join u on a
select a from t on a
select a from t union select a from t
select all from t
select distinct from t
distinct select a from t
open c select a from t for
open c.d for select a from t
open 1 for select a from t
open c for open d for select a from t
start c
start c -1
start c 1 2
start c 1.0
work +1
work 1 2
fetch 1 c
fetch c 'x'
close c d
pool (16)
pool 0x10
mpl one
memory
show memory 1
show show
vacuum t, u
vacuum 't'
vacuum t.u
vacuum \rt
vacuum t\u{b}
vacuum t\u{e9}
vacuum t \u{0}
insert into t values (1) \u{7f}
insert into t values ('\u{7f}')
insert into t values ('xxxxxxxxxxxxxxxxxxxxxxxxxxxxxxxxxxxxxxxxxxxxxxxxxxxxxxxxxxxxxxxxxxxxxxxxxxxxxxxxxxxxxxxxxxxxxxxxxxxxxxxxxxxxxxxxxxxxxxxxxxxxxxxxxxxxxxxxxxxxxxxxxxxxxxxxxxxxxxxxxxxxxxxxxxxxxxxxxxxxxxxxxxxxxxxxxxxxxxxxxxxxxxxxxxxxxxxxxxxxxxxxxxxxxxxxxxxxxxxxxxxxxxxxxxxxxxxx'
insert into t values (111111111111111111111111111111111111111
pool 0 0
vacuum t /* */
select a from t where a = 'b' 'c'
select \u{60}a\u{60} from t
select a from t where a % b
select a / b from t
select a || b from t
select ?, :a, @a, $1 from t
update aaaaaaaaaaaaaaaaaaaaaaaaaaaaaaa set
update t set a = 1, a = 1, a = 1, a = 1, a = 1, a = 1, a = 1, a = 1, a = 1, a = 1, a = 1, a = 1, a = 1, a = 1, a = 1, a = 1, a = 1,
insert into t values (1), (1), (1), (1), (1), (1), (1), (1), (1), (1), (1), (1), (1), (1), (1), (1), (1), (1), (1), (1), (1), (1), (1), (1), (1), (1), (1), (1), (1), (1), (1), (1), (1), (1), (1), (1), (1), (1), (1), (1), (1), (1), (1), (1), (1), (1), (1), (1), (1), (1), (1), (1), (1), (1), (1), (1), (1), (1), (1), (1), (1), (1), (1), (1), (1),
select a from t, t, t, t, t where
select a from t order by 1, 1, 1, 1, 1, 1, 1, 1, 1 1
select min(min(min(min(min(min(min(min(min(min(min(min(min(min(min(min(min(min(min(min(min(min(min(min(min(min(min(min(min(min(min(min(min(a))))))))))))))))))))))))))))))))) from t
select (((((((((((((((((((((((((((((((((1))))))))))))))))))))))))))))))))) from t
select ((((((((((((((((((((((((((((((((count(*))))))))))))))))))))))))))))))))) from t
select ((((((((((((((((((((((((((((((((min(a))))))))))))))))))))))))))))))))) from t
select ((((((((((((((((((((((((((((((((a))))))))))))))))))))))))))))))) from t
select (((((((((((((((((((((((((((((((a)))))))))))))))))))))))))))))))) from t";

/// Lines with a number out of range, where the pool may have 64 frames at most. Some have too many of
/// something as well.
pub const BAD_NUMBERS: &str = "create table t (a varchar(0))
create table t (a varchar(256))
create table t (a varchar(99999999999999999999))
insert into t values (100000000000000000000000000000000000000)
select 100000000000000000000000000000000000000 from t
select a from t order by 4294967296
start c 0
work 1000000001
fetch c 99999999999
pool 15
pool 65
mpl 0
mpl 17
update t set a = 100000000000000000000000000000000000000
select aaaaaaaaaaaaaaaaaaaaaaaaaaaaaaa from t order by 4294967296
create table t (a int, a int, a int, a int, a int, a int, a int, a int, a int, a int, a int, a int, a int, a int, a int, a int, b varchar(0))
create table t (a varchar(000))
create table t (a int, b varchar(1), c varchar(256))
create table t (aaaaaaaaaaaaaaaaaaaaaaaaaaaaaaa varchar(0))
create table t (a int, a int, a int, a int, a int, a int, a int, a int, a int, a int, a int, a int, a int, a int, a int, a int, b varchar(256), c int)
insert into t values (1, 'x', -100000000000000000000000000000000000000)
insert into t values (-100000000000000000000000000000000000000), (1)
insert into t values (0100000000000000000000000000000000000000)
insert into t values ('xxxxxxxxxxxxxxxxxxxxxxxxxxxxxxxxxxxxxxxxxxxxxxxxxxxxxxxxxxxxxxxxxxxxxxxxxxxxxxxxxxxxxxxxxxxxxxxxxxxxxxxxxxxxxxxxxxxxxxxxxxxxxxxxxxxxxxxxxxxxxxxxxxxxxxxxxxxxxxxxxxxxxxxxxxxxxxxxxxxxxxxxxxxxxxxxxxxxxxxxxxxxxxxxxxxxxxxxxxxxxxxxxxxxxxxxxxxxxxxxxxxxxxxxxxxxxxxx', 100000000000000000000000000000000000000)
insert into t (a, a, a, a, a, a, a, a, a, a, a, a, a, a, a, a, a) values (100000000000000000000000000000000000000)
insert into t values (1), (1), (1), (1), (1), (1), (1), (1), (1), (1), (1), (1), (1), (1), (1), (1), (1), (1), (1), (1), (1), (1), (1), (1), (1), (1), (1), (1), (1), (1), (1), (1), (1), (1), (1), (1), (1), (1), (1), (1), (1), (1), (1), (1), (1), (1), (1), (1), (1), (1), (1), (1), (1), (1), (1), (1), (1), (1), (1), (1), (1), (1), (1), (1), (1), (100000000000000000000000000000000000000)
insert into aaaaaaaaaaaaaaaaaaaaaaaaaaaaaaa values (100000000000000000000000000000000000000)
select a from t where a in (1, 100000000000000000000000000000000000000)
select a from t group by a having - 100000000000000000000000000000000000000
select a from t join u on 100000000000000000000000000000000000000 = a
open c for select 100000000000000000000000000000000000000 from t
open c for select a from t order by 99999999999
delete from t where a = 100000000000000000000000000000000000000
delete from aaaaaaaaaaaaaaaaaaaaaaaaaaaaaaa where a between 1 and 100000000000000000000000000000000000000
update t set a = 1 where a < 100000000000000000000000000000000000000
select a + a + a + a + a + a + a + a + a + a + a + a + a + a + a + a + a + a + a + a + a + a + a + a + a + a + a + a + a + a + a + a + a + a + a + a + a + a + a + a + a + a + a + a + a + a + a + a + a + 100000000000000000000000000000000000000 from t
select a from t, t, t, t, t where 100000000000000000000000000000000000000
select a, a, a, a, a, a, a, a, a, a, a, a, a, a, a, a, a from t order by 4294967296
select a from t order by 1, 1, 1, 1, 1, 1, 1, 1, 1, 4294967296
start c 1000000001
start c 9999999999999999999999999999999999999999
start aaaaaaaaaaaaaaaaaaaaaaaaaaaaaaa 0
work 0
work 4294967296
fetch c 0
fetch c 1000000001
pool 0
pool 4294967360
pool 9999999999999999999999999999999999999999
mpl 18446744073709551617";

/// Lines with too many of something, by the first kind.
pub const TOO_MANY_NAME_LETTERS: &str = "vacuum aaaaaaaaaaaaaaaaaaaaaaaaaaaaaaa
create table aaaaaaaaaaaaaaaaaaaaaaaaaaaaaaa (a int)
create table t (aaaaaaaaaaaaaaaaaaaaaaaaaaaaaaa int)
create index aaaaaaaaaaaaaaaaaaaaaaaaaaaaaaa on t (a)
create index i on t (a, aaaaaaaaaaaaaaaaaaaaaaaaaaaaaaa)
insert into t (aaaaaaaaaaaaaaaaaaaaaaaaaaaaaaa) values (1)
update t set aaaaaaaaaaaaaaaaaaaaaaaaaaaaaaa = 1
delete from t where aaaaaaaaaaaaaaaaaaaaaaaaaaaaaaa.a = 1
select a from t where b.aaaaaaaaaaaaaaaaaaaaaaaaaaaaaaa = 1
select a as aaaaaaaaaaaaaaaaaaaaaaaaaaaaaaa from t
select a from t as aaaaaaaaaaaaaaaaaaaaaaaaaaaaaaa
select a from t group by aaaaaaaaaaaaaaaaaaaaaaaaaaaaaaa
select a from t order by aaaaaaaaaaaaaaaaaaaaaaaaaaaaaaa
open aaaaaaaaaaaaaaaaaaaaaaaaaaaaaaa for select a from t
start aaaaaaaaaaaaaaaaaaaaaaaaaaaaaaa 1
fetch aaaaaaaaaaaaaaaaaaaaaaaaaaaaaaa 1
close aaaaaaaaaaaaaaaaaaaaaaaaaaaaaaa
close ________________________________________________________________________________________________________________________________________________________________________________________________________________________________________________________________________________________________________________________________________________________________________________________________________________________________________________________________________________________________________________________________________________________________________________________________________________________________________________________________________________________________________________________________________________________________________________________________________________________________________________________________________________________________________________________________________________________________________________________________________________________________________________________________________________________________________________________________________________________________________________________________________________________________________________________________________________________________________________________________________________________________________________________________________________________________________________________________________________________________________________________________________________________________________________________________________________________________________________________________________________________________________________________________________________________________________________________________________________________________________________________________________________________________________________________________________________________________________________________________________________________________________________________________________________________________________________________________________________________________________________________________________________________________________________________________________________________________________________________________________________________________________________________________________________________________________________________________________________________________________________________________________________________________________________________________________________________________________________________________________________________________________________________________________________________________________________________________________________________________________________________________________________________________________________________________________________________________________________________________________________________________________________________________________________________________________________________
close workkkkkkkkkkkkkkkkkkkkkkkkkkkk
insert into aaaaaaaaaaaaaaaaaaaaaaaaaaaaaaa values ('xxxxxxxxxxxxxxxxxxxxxxxxxxxxxxxxxxxxxxxxxxxxxxxxxxxxxxxxxxxxxxxxxxxxxxxxxxxxxxxxxxxxxxxxxxxxxxxxxxxxxxxxxxxxxxxxxxxxxxxxxxxxxxxxxxxxxxxxxxxxxxxxxxxxxxxxxxxxxxxxxxxxxxxxxxxxxxxxxxxxxxxxxxxxxxxxxxxxxxxxxxxxxxxxxxxxxxxxxxxxxxxxxxxxxxxxxxxxxxxxxxxxxxxxxxxxxxxx')
create table aaaaaaaaaaaaaaaaaaaaaaaaaaaaaaa (a int, a int, a int, a int, a int, a int, a int, a int, a int, a int, a int, a int, a int, a int, a int, a int, a int)
insert into aaaaaaaaaaaaaaaaaaaaaaaaaaaaaaa values (1), (1), (1), (1), (1), (1), (1), (1), (1), (1), (1), (1), (1), (1), (1), (1), (1), (1), (1), (1), (1), (1), (1), (1), (1), (1), (1), (1), (1), (1), (1), (1), (1), (1), (1), (1), (1), (1), (1), (1), (1), (1), (1), (1), (1), (1), (1), (1), (1), (1), (1), (1), (1), (1), (1), (1), (1), (1), (1), (1), (1), (1), (1), (1), (1)
select aaaaaaaaaaaaaaaaaaaaaaaaaaaaaaa from t, t, t, t, t
select aaaaaaaaaaaaaaaaaaaaaaaaaaaaaaa + a + a + a + a + a + a + a + a + a + a + a + a + a + a + a + a + a + a + a + a + a + a + a + a + a + a + a + a + a + a + a + a + a + a + a + a + a + a + a + a + a + a + a + a + a + a + a + a from t";

pub const TOO_MANY_TEXT_LETTERS: &str =
    "insert into t values ('xxxxxxxxxxxxxxxxxxxxxxxxxxxxxxxxxxxxxxxxxxxxxxxxxxxxxxxxxxxxxxxxxxxxxxxxxxxxxxxxxxxxxxxxxxxxxxxxxxxxxxxxxxxxxxxxxxxxxxxxxxxxxxxxxxxxxxxxxxxxxxxxxxxxxxxxxxxxxxxxxxxxxxxxxxxxxxxxxxxxxxxxxxxxxxxxxxxxxxxxxxxxxxxxxxxxxxxxxxxxxxxxxxxxxxxxxxxxxxxxxxxxxxxxxxxxxxxx')
insert into t values ('''''''''''''''''''''''''''''''''''''''''''''''''''''''''''''''''''''''''''''''''''''''''''''''''''''''''''''''''''''''''''''''''''''''''''''''''''''''''''''''''''''''''''''''''''''''''''''''''''''''''''''''''''''''''''''''''''''''''''''''''''''''''''''''''''''''''''''''''''''''''''''''''''''''''''''''''''''''''''''''''''''''''''''''''''''''''''''''''''''''''''''''''''''''''''''''''''''''''''''''''''''''''''''''''''''''''''''''''''''''''''''''''''''''''''''''''''''''''''''''''''''''''''''''''''''''''''''''''')
select 'xxxxxxxxxxxxxxxxxxxxxxxxxxxxxxxxxxxxxxxxxxxxxxxxxxxxxxxxxxxxxxxxxxxxxxxxxxxxxxxxxxxxxxxxxxxxxxxxxxxxxxxxxxxxxxxxxxxxxxxxxxxxxxxxxxxxxxxxxxxxxxxxxxxxxxxxxxxxxxxxxxxxxxxxxxxxxxxxxxxxxxxxxxxxxxxxxxxxxxxxxxxxxxxxxxxxxxxxxxxxxxxxxxxxxxxxxxxxxxxxxxxxxxxxxxxxxxxx' from t
update t set a = 'xxxxxxxxxxxxxxxxxxxxxxxxxxxxxxxxxxxxxxxxxxxxxxxxxxxxxxxxxxxxxxxxxxxxxxxxxxxxxxxxxxxxxxxxxxxxxxxxxxxxxxxxxxxxxxxxxxxxxxxxxxxxxxxxxxxxxxxxxxxxxxxxxxxxxxxxxxxxxxxxxxxxxxxxxxxxxxxxxxxxxxxxxxxxxxxxxxxxxxxxxxxxxxxxxxxxxxxxxxxxxxxxxxxxxxxxxxxxxxxxxxxxxxxxxxxxxxxx'
delete from t where a in ('x', 'xxxxxxxxxxxxxxxxxxxxxxxxxxxxxxxxxxxxxxxxxxxxxxxxxxxxxxxxxxxxxxxxxxxxxxxxxxxxxxxxxxxxxxxxxxxxxxxxxxxxxxxxxxxxxxxxxxxxxxxxxxxxxxxxxxxxxxxxxxxxxxxxxxxxxxxxxxxxxxxxxxxxxxxxxxxxxxxxxxxxxxxxxxxxxxxxxxxxxxxxxxxxxxxxxxxxxxxxxxxxxxxxxxxxxxxxxxxxxxxxxxxxxxxxxxxxxxxx')
insert into t (a, a, a, a, a, a, a, a, a, a, a, a, a, a, a, a, a) values ('xxxxxxxxxxxxxxxxxxxxxxxxxxxxxxxxxxxxxxxxxxxxxxxxxxxxxxxxxxxxxxxxxxxxxxxxxxxxxxxxxxxxxxxxxxxxxxxxxxxxxxxxxxxxxxxxxxxxxxxxxxxxxxxxxxxxxxxxxxxxxxxxxxxxxxxxxxxxxxxxxxxxxxxxxxxxxxxxxxxxxxxxxxxxxxxxxxxxxxxxxxxxxxxxxxxxxxxxxxxxxxxxxxxxxxxxxxxxxxxxxxxxxxxxxxxxxxxx')
insert into t values (1), (1), (1), (1), (1), (1), (1), (1), (1), (1), (1), (1), (1), (1), (1), (1), (1), (1), (1), (1), (1), (1), (1), (1), (1), (1), (1), (1), (1), (1), (1), (1), (1), (1), (1), (1), (1), (1), (1), (1), (1), (1), (1), (1), (1), (1), (1), (1), (1), (1), (1), (1), (1), (1), (1), (1), (1), (1), (1), (1), (1), (1), (1), (1), (1), ('xxxxxxxxxxxxxxxxxxxxxxxxxxxxxxxxxxxxxxxxxxxxxxxxxxxxxxxxxxxxxxxxxxxxxxxxxxxxxxxxxxxxxxxxxxxxxxxxxxxxxxxxxxxxxxxxxxxxxxxxxxxxxxxxxxxxxxxxxxxxxxxxxxxxxxxxxxxxxxxxxxxxxxxxxxxxxxxxxxxxxxxxxxxxxxxxxxxxxxxxxxxxxxxxxxxxxxxxxxxxxxxxxxxxxxxxxxxxxxxxxxxxxxxxxxxxxxxx')
select 'xxxxxxxxxxxxxxxxxxxxxxxxxxxxxxxxxxxxxxxxxxxxxxxxxxxxxxxxxxxxxxxxxxxxxxxxxxxxxxxxxxxxxxxxxxxxxxxxxxxxxxxxxxxxxxxxxxxxxxxxxxxxxxxxxxxxxxxxxxxxxxxxxxxxxxxxxxxxxxxxxxxxxxxxxxxxxxxxxxxxxxxxxxxxxxxxxxxxxxxxxxxxxxxxxxxxxxxxxxxxxxxxxxxxxxxxxxxxxxxxxxxxxxxxxxxxxxxx' from t, t, t, t, t
select 'xxxxxxxxxxxxxxxxxxxxxxxxxxxxxxxxxxxxxxxxxxxxxxxxxxxxxxxxxxxxxxxxxxxxxxxxxxxxxxxxxxxxxxxxxxxxxxxxxxxxxxxxxxxxxxxxxxxxxxxxxxxxxxxxxxxxxxxxxxxxxxxxxxxxxxxxxxxxxxxxxxxxxxxxxxxxxxxxxxxxxxxxxxxxxxxxxxxxxxxxxxxxxxxxxxxxxxxxxxxxxxxxxxxxxxxxxxxxxxxxxxxxxxxxxxxxxxxx' + a + a + a + a + a + a + a + a + a + a + a + a + a + a + a + a + a + a + a + a + a + a + a + a + a + a + a + a + a + a + a + a + a + a + a + a + a + a + a + a + a + a + a + a + a + a + a + a from t";

pub const TOO_MANY_COLUMNS: &str =
    "create table t (a int, a int, a int, a int, a int, a int, a int, a int, a int, a int, a int, a int, a int, a int, a int, a int, a int)
create index i on t (a, a, a, a, a, a, a, a, a, a, a, a, a, a, a, a, a)
create unique index i on t (a, a, a, a, a, a, a, a, a, a, a, a, a, a, a, a, a, a, a, a, a, a, a, a, a, a, a, a, a, a, a, a, a, a, a, a, a, a, a, a, a, a, a, a, a, a, a, a, a, a, a, a, a, a, a, a, a, a, a, a, a, a, a, a, a, a, a, a, a, a, a, a, a, a, a, a, a, a, a, a, a, a, a, a, a, a, a, a, a, a, a, a, a, a, a, a, a, a, a, a, a, a, a, a, a, a, a, a, a, a, a, a, a, a, a, a, a, a, a, a, a, a, a, a, a, a, a, a, a, a, a, a, a, a, a, a, a, a, a, a, a, a, a, a, a, a, a, a, a, a, a, a, a, a, a, a, a, a, a, a, a, a, a, a, a, a, a, a, a, a, a, a, a, a, a, a, a, a, a, a, a, a, a, a, a, a, a, a, a, a, a, a, a, a, a, a, a, a, a, a, a, a, a, a, a, a, a, a, a, a, a, a, a, a, a, a, a, a, a, a, a, a, a, a, a, a, a, a, a, a, a, a, a, a, a, a, a, a, a, a, a, a, a, a, a, a, a, a, a, a, a, a, a, a, a, a, a, a, a, a, a, a, a, a, a, a, a, a, a, a, a, a, a, a, a, a, a, a, a, a, a, a, a, a, a, a, a, a, a, a, a, a, a, a, a, a, a, a, a, a)
insert into t (a, a, a, a, a, a, a, a, a, a, a, a, a, a, a, a, a) values (1)
insert into t (a, a, a, a, a, a, a, a, a, a, a, a, a, a, a, a, a) values (1), (1), (1), (1), (1), (1), (1), (1), (1), (1), (1), (1), (1), (1), (1), (1), (1), (1), (1), (1), (1), (1), (1), (1), (1), (1), (1), (1), (1), (1), (1), (1), (1), (1), (1), (1), (1), (1), (1), (1), (1), (1), (1), (1), (1), (1), (1), (1), (1), (1), (1), (1), (1), (1), (1), (1), (1), (1), (1), (1), (1), (1), (1), (1), (1)
update t set a = 1, a = 1, a = 1, a = 1, a = 1, a = 1, a = 1, a = 1, a = 1, a = 1, a = 1, a = 1, a = 1, a = 1, a = 1, a = 1, a = 1
update t set a = b + c + d + e, a = b + c + d + e, a = b + c + d + e, a = b + c + d + e, a = b + c + d + e, a = b + c + d + e, a = b + c + d + e, a = b + c + d + e, a = b + c + d + e, a = b + c + d + e, a = b + c + d + e, a = b + c + d + e, a = b + c + d + e, a = b + c + d + e, a = b + c + d + e, a = b + c + d + e, a = b + c + d + e";

pub const TOO_MANY_ROWS: &str =
    "insert into t values (1), (1), (1), (1), (1), (1), (1), (1), (1), (1), (1), (1), (1), (1), (1), (1), (1), (1), (1), (1), (1), (1), (1), (1), (1), (1), (1), (1), (1), (1), (1), (1), (1), (1), (1), (1), (1), (1), (1), (1), (1), (1), (1), (1), (1), (1), (1), (1), (1), (1), (1), (1), (1), (1), (1), (1), (1), (1), (1), (1), (1), (1), (1), (1), (1)
insert into t values (1, 1, 1, 1, 1, 1, 1, 1, 1, 1, 1, 1, 1, 1, 1, 1), (1, 1, 1, 1, 1, 1, 1, 1, 1, 1, 1, 1, 1, 1, 1, 1), (1, 1, 1, 1, 1, 1, 1, 1, 1, 1, 1, 1, 1, 1, 1, 1), (1, 1, 1, 1, 1, 1, 1, 1, 1, 1, 1, 1, 1, 1, 1, 1), (1, 1, 1, 1, 1, 1, 1, 1, 1, 1, 1, 1, 1, 1, 1, 1), (1, 1, 1, 1, 1, 1, 1, 1, 1, 1, 1, 1, 1, 1, 1, 1), (1, 1, 1, 1, 1, 1, 1, 1, 1, 1, 1, 1, 1, 1, 1, 1), (1, 1, 1, 1, 1, 1, 1, 1, 1, 1, 1, 1, 1, 1, 1, 1), (1, 1, 1, 1, 1, 1, 1, 1, 1, 1, 1, 1, 1, 1, 1, 1), (1, 1, 1, 1, 1, 1, 1, 1, 1, 1, 1, 1, 1, 1, 1, 1), (1, 1, 1, 1, 1, 1, 1, 1, 1, 1, 1, 1, 1, 1, 1, 1), (1, 1, 1, 1, 1, 1, 1, 1, 1, 1, 1, 1, 1, 1, 1, 1), (1, 1, 1, 1, 1, 1, 1, 1, 1, 1, 1, 1, 1, 1, 1, 1), (1, 1, 1, 1, 1, 1, 1, 1, 1, 1, 1, 1, 1, 1, 1, 1), (1, 1, 1, 1, 1, 1, 1, 1, 1, 1, 1, 1, 1, 1, 1, 1), (1, 1, 1, 1, 1, 1, 1, 1, 1, 1, 1, 1, 1, 1, 1, 1), (1, 1, 1, 1, 1, 1, 1, 1, 1, 1, 1, 1, 1, 1, 1, 1), (1, 1, 1, 1, 1, 1, 1, 1, 1, 1, 1, 1, 1, 1, 1, 1), (1, 1, 1, 1, 1, 1, 1, 1, 1, 1, 1, 1, 1, 1, 1, 1), (1, 1, 1, 1, 1, 1, 1, 1, 1, 1, 1, 1, 1, 1, 1, 1), (1, 1, 1, 1, 1, 1, 1, 1, 1, 1, 1, 1, 1, 1, 1, 1), (1, 1, 1, 1, 1, 1, 1, 1, 1, 1, 1, 1, 1, 1, 1, 1), (1, 1, 1, 1, 1, 1, 1, 1, 1, 1, 1, 1, 1, 1, 1, 1), (1, 1, 1, 1, 1, 1, 1, 1, 1, 1, 1, 1, 1, 1, 1, 1), (1, 1, 1, 1, 1, 1, 1, 1, 1, 1, 1, 1, 1, 1, 1, 1), (1, 1, 1, 1, 1, 1, 1, 1, 1, 1, 1, 1, 1, 1, 1, 1), (1, 1, 1, 1, 1, 1, 1, 1, 1, 1, 1, 1, 1, 1, 1, 1), (1, 1, 1, 1, 1, 1, 1, 1, 1, 1, 1, 1, 1, 1, 1, 1), (1, 1, 1, 1, 1, 1, 1, 1, 1, 1, 1, 1, 1, 1, 1, 1), (1, 1, 1, 1, 1, 1, 1, 1, 1, 1, 1, 1, 1, 1, 1, 1), (1, 1, 1, 1, 1, 1, 1, 1, 1, 1, 1, 1, 1, 1, 1, 1), (1, 1, 1, 1, 1, 1, 1, 1, 1, 1, 1, 1, 1, 1, 1, 1), (1, 1, 1, 1, 1, 1, 1, 1, 1, 1, 1, 1, 1, 1, 1, 1), (1, 1, 1, 1, 1, 1, 1, 1, 1, 1, 1, 1, 1, 1, 1, 1), (1, 1, 1, 1, 1, 1, 1, 1, 1, 1, 1, 1, 1, 1, 1, 1), (1, 1, 1, 1, 1, 1, 1, 1, 1, 1, 1, 1, 1, 1, 1, 1), (1, 1, 1, 1, 1, 1, 1, 1, 1, 1, 1, 1, 1, 1, 1, 1), (1, 1, 1, 1, 1, 1, 1, 1, 1, 1, 1, 1, 1, 1, 1, 1), (1, 1, 1, 1, 1, 1, 1, 1, 1, 1, 1, 1, 1, 1, 1, 1), (1, 1, 1, 1, 1, 1, 1, 1, 1, 1, 1, 1, 1, 1, 1, 1), (1, 1, 1, 1, 1, 1, 1, 1, 1, 1, 1, 1, 1, 1, 1, 1), (1, 1, 1, 1, 1, 1, 1, 1, 1, 1, 1, 1, 1, 1, 1, 1), (1, 1, 1, 1, 1, 1, 1, 1, 1, 1, 1, 1, 1, 1, 1, 1), (1, 1, 1, 1, 1, 1, 1, 1, 1, 1, 1, 1, 1, 1, 1, 1), (1, 1, 1, 1, 1, 1, 1, 1, 1, 1, 1, 1, 1, 1, 1, 1), (1, 1, 1, 1, 1, 1, 1, 1, 1, 1, 1, 1, 1, 1, 1, 1), (1, 1, 1, 1, 1, 1, 1, 1, 1, 1, 1, 1, 1, 1, 1, 1), (1, 1, 1, 1, 1, 1, 1, 1, 1, 1, 1, 1, 1, 1, 1, 1), (1, 1, 1, 1, 1, 1, 1, 1, 1, 1, 1, 1, 1, 1, 1, 1), (1, 1, 1, 1, 1, 1, 1, 1, 1, 1, 1, 1, 1, 1, 1, 1), (1, 1, 1, 1, 1, 1, 1, 1, 1, 1, 1, 1, 1, 1, 1, 1), (1, 1, 1, 1, 1, 1, 1, 1, 1, 1, 1, 1, 1, 1, 1, 1), (1, 1, 1, 1, 1, 1, 1, 1, 1, 1, 1, 1, 1, 1, 1, 1), (1, 1, 1, 1, 1, 1, 1, 1, 1, 1, 1, 1, 1, 1, 1, 1), (1, 1, 1, 1, 1, 1, 1, 1, 1, 1, 1, 1, 1, 1, 1, 1), (1, 1, 1, 1, 1, 1, 1, 1, 1, 1, 1, 1, 1, 1, 1, 1), (1, 1, 1, 1, 1, 1, 1, 1, 1, 1, 1, 1, 1, 1, 1, 1), (1, 1, 1, 1, 1, 1, 1, 1, 1, 1, 1, 1, 1, 1, 1, 1), (1, 1, 1, 1, 1, 1, 1, 1, 1, 1, 1, 1, 1, 1, 1, 1), (1, 1, 1, 1, 1, 1, 1, 1, 1, 1, 1, 1, 1, 1, 1, 1), (1, 1, 1, 1, 1, 1, 1, 1, 1, 1, 1, 1, 1, 1, 1, 1), (1, 1, 1, 1, 1, 1, 1, 1, 1, 1, 1, 1, 1, 1, 1, 1), (1, 1, 1, 1, 1, 1, 1, 1, 1, 1, 1, 1, 1, 1, 1, 1), (1, 1, 1, 1, 1, 1, 1, 1, 1, 1, 1, 1, 1, 1, 1, 1), (1, 1, 1, 1, 1, 1, 1, 1, 1, 1, 1, 1, 1, 1, 1, 1)
insert into t values (null), (null), (null), (null), (null), (null), (null), (null), (null), (null), (null), (null), (null), (null), (null), (null), (null), (null), (null), (null), (null), (null), (null), (null), (null), (null), (null), (null), (null), (null), (null), (null), (null), (null), (null), (null), (null), (null), (null), (null), (null), (null), (null), (null), (null), (null), (null), (null), (null), (null), (null), (null), (null), (null), (null), (null), (null), (null), (null), (null), (null), (null), (null), (null), (null), (null), (null), (null), (null), (null), (null), (null), (null), (null), (null), (null), (null), (null), (null), (null), (null), (null), (null), (null), (null), (null), (null), (null), (null), (null), (null), (null), (null), (null), (null), (null), (null), (null), (null), (null), (null), (null), (null), (null), (null), (null), (null), (null), (null), (null), (null), (null), (null), (null), (null), (null), (null), (null), (null), (null), (null), (null), (null), (null), (null), (null), (null), (null), (null), (null), (null), (null), (null), (null), (null), (null), (null), (null), (null), (null), (null), (null), (null), (null), (null), (null), (null), (null), (null), (null), (null), (null), (null), (null), (null), (null), (null), (null), (null), (null), (null), (null), (null), (null), (null), (null), (null), (null), (null), (null), (null), (null), (null), (null), (null), (null), (null), (null), (null), (null), (null), (null), (null), (null), (null), (null), (null), (null), (null), (null), (null), (null), (null), (null), (null), (null), (null), (null), (null), (null), (null), (null), (null), (null), (null), (null), (null), (null), (null), (null), (null), (null), (null), (null), (null), (null), (null), (null), (null), (null), (null), (null), (null), (null), (null), (null), (null), (null), (null), (null), (null), (null), (null), (null), (null), (null), (null), (null), (null), (null), (null), (null), (null), (null), (null), (null), (null), (null), (null), (null), (null), (null), (null), (null), (null), (null), (null), (null), (null), (null), (null), (null), (null), (null), (null), (null), (null), (null), (null), (null), (null), (null), (null), (null), (null), (null), (null), (null), (null), (null), (null), (null), (null), (null), (null), (null), (null), (null), (null), (null), (null), (null), (null), (null), (null), (null), (null), (null), (null), (null)";

pub const TOO_MANY_TABLES_IN_FROM: &str = "select a from t, t, t, t, t
select a from t cross join t join t on a inner join t on a, t
select a, a, a, a, a, a, a, a, a, a, a, a, a, a, a, a, a from t, t, t, t, t
open c for select a from t, t, t, t, t
select a from t, t, t, t, t group by a, a, a, a, a, a, a, a, a, a, a, a, a, a, a, a, a
select a from t, t, t, t, t, t, t, t, t, t, t, t, t, t, t, t, t, t, t, t, t, t, t, t, t, t, t, t, t, t, t, t, t, t, t, t, t, t, t, t, t, t, t, t, t, t, t, t, t, t, t, t, t, t, t, t, t, t, t, t, t, t, t, t, t, t, t, t, t, t, t, t, t, t, t, t, t, t, t, t, t, t, t, t, t, t, t, t, t, t, t, t, t, t, t, t, t, t, t, t, t, t, t, t, t, t, t, t, t, t, t, t, t, t, t, t, t, t, t, t, t, t, t, t, t, t, t, t, t, t, t, t, t, t, t, t, t, t, t, t, t, t, t, t, t, t, t, t, t, t, t, t, t, t, t, t, t, t, t, t, t, t, t, t, t, t, t, t, t, t, t, t, t, t, t, t, t, t, t, t, t, t, t, t, t, t, t, t, t, t, t, t, t, t, t, t, t, t, t, t, t, t, t, t, t, t, t, t, t, t, t, t, t, t, t, t, t, t, t, t, t, t, t, t, t, t, t, t, t, t, t, t, t, t, t, t, t, t, t, t, t, t, t, t, t, t, t, t, t, t, t, t, t, t, t, t, t, t, t, t, t, t, t, t, t, t, t, t, t, t, t, t, t, t, t, t, t, t, t, t, t, t, t, t, t, t, t, t, t, t, t, t, t, t, t, t, t, t, t, t";

pub const TOO_MANY_OUTPUTS: &str = "select a, a, a, a, a, a, a, a, a, a, a, a, a, a, a, a, a from t
select distinct a as b, a as b, a as b, a as b, a as b, a as b, a as b, a as b, a as b, a as b, a as b, a as b, a as b, a as b, a as b, a as b, a as b from t
open c for select 1, 1, 1, 1, 1, 1, 1, 1, 1, 1, 1, 1, 1, 1, 1, 1, 1 from t
select a, a, a, a, a, a, a, a, a, a, a, a, a, a, a, a, a from t group by a, a, a, a, a, a, a, a, a, a, a, a, a, a, a, a, a
select a, a, a, a, a, a, a, a, a, a, a, a, a, a, a, a, a, a, a, a, a, a, a, a, a, a, a, a, a, a, a, a, a, a, a, a, a, a, a, a, a, a, a, a, a, a, a, a, a, a, a, a, a, a, a, a, a, a, a, a, a, a, a, a, a, a, a, a, a, a, a, a, a, a, a, a, a, a, a, a, a, a, a, a, a, a, a, a, a, a, a, a, a, a, a, a, a, a, a, a, a, a, a, a, a, a, a, a, a, a, a, a, a, a, a, a, a, a, a, a, a, a, a, a, a, a, a, a, a, a, a, a, a, a, a, a, a, a, a, a, a, a, a, a, a, a, a, a, a, a, a, a, a, a, a, a, a, a, a, a, a, a, a, a, a, a, a, a, a, a, a, a, a, a, a, a, a, a, a, a, a, a, a, a, a, a, a, a, a, a, a, a, a, a, a, a, a, a, a, a, a, a, a, a, a, a, a, a, a, a, a, a, a, a, a, a, a, a, a, a, a, a, a, a, a, a, a, a, a, a, a, a, a, a, a, a, a, a, a, a, a, a, a, a, a, a, a, a, a, a, a, a, a, a, a, a, a, a, a, a, a, a, a, a, a, a, a, a, a, a, a, a, a, a, a, a, a, a, a, a, a, a, a, a, a, a, a, a, a, a, a, a, a, a, a, a, a, a, a, a from t";

pub const TOO_MANY_GROUP_COLUMNS: &str =
    "select a from t group by a, a, a, a, a, a, a, a, a, a, a, a, a, a, a, a, a
open c for select a from t group by a, a, a, a, a, a, a, a, a, a, a, a, a, a, a, a, a
select a from t group by t.a, t.a, t.a, t.a, t.a, t.a, t.a, t.a, t.a, t.a, t.a, t.a, t.a, t.a, t.a, t.a, t.a order by 1, 1, 1, 1, 1, 1, 1, 1, 1
select * from t group by a, a, a, a, a, a, a, a, a, a, a, a, a, a, a, a, a, a, a, a, a, a, a, a, a, a, a, a, a, a, a, a, a, a, a, a, a, a, a, a, a, a, a, a, a, a, a, a, a, a, a, a, a, a, a, a, a, a, a, a, a, a, a, a, a, a, a, a, a, a, a, a, a, a, a, a, a, a, a, a, a, a, a, a, a, a, a, a, a, a, a, a, a, a, a, a, a, a, a, a, a, a, a, a, a, a, a, a, a, a, a, a, a, a, a, a, a, a, a, a, a, a, a, a, a, a, a, a, a, a, a, a, a, a, a, a, a, a, a, a, a, a, a, a, a, a, a, a, a, a, a, a, a, a, a, a, a, a, a, a, a, a, a, a, a, a, a, a, a, a, a, a, a, a, a, a, a, a, a, a, a, a, a, a, a, a, a, a, a, a, a, a, a, a, a, a, a, a, a, a, a, a, a, a, a, a, a, a, a, a, a, a, a, a, a, a, a, a, a, a, a, a, a, a, a, a, a, a, a, a, a, a, a, a, a, a, a, a, a, a, a, a, a, a, a, a, a, a, a, a, a, a, a, a, a, a, a, a, a, a, a, a, a, a, a, a, a, a, a, a, a, a, a, a, a, a, a, a, a, a, a, a, a, a, a, a, a, a, a, a, a, a, a, a, a, a, a, a, a, a";

pub const TOO_MANY_ORDER_KEYS: &str = "select a from t order by 1, 1, 1, 1, 1, 1, 1, 1, 1
open c for select a from t order by a desc, a desc, a desc, a desc, a desc, a desc, a desc, a desc, a desc
select a + a + a + a + a + a + a + a + a + a + a + a + a + a + a + a + a + a + a + a + a + a + a + a + a + a + a + a + a + a + a + a + a + a + a + a + a + a + a + a + a + a + a + a + a + a + a + a + a from t order by 1, 1, 1, 1, 1, 1, 1, 1, 1
select * from t order by 1, 1, 1, 1, 1, 1, 1, 1, 1, 1, 1, 1, 1, 1, 1, 1, 1, 1, 1, 1, 1, 1, 1, 1, 1, 1, 1, 1, 1, 1, 1, 1, 1, 1, 1, 1, 1, 1, 1, 1, 1, 1, 1, 1, 1, 1, 1, 1, 1, 1, 1, 1, 1, 1, 1, 1, 1, 1, 1, 1, 1, 1, 1, 1, 1, 1, 1, 1, 1, 1, 1, 1, 1, 1, 1, 1, 1, 1, 1, 1, 1, 1, 1, 1, 1, 1, 1, 1, 1, 1, 1, 1, 1, 1, 1, 1, 1, 1, 1, 1, 1, 1, 1, 1, 1, 1, 1, 1, 1, 1, 1, 1, 1, 1, 1, 1, 1, 1, 1, 1, 1, 1, 1, 1, 1, 1, 1, 1, 1, 1, 1, 1, 1, 1, 1, 1, 1, 1, 1, 1, 1, 1, 1, 1, 1, 1, 1, 1, 1, 1, 1, 1, 1, 1, 1, 1, 1, 1, 1, 1, 1, 1, 1, 1, 1, 1, 1, 1, 1, 1, 1, 1, 1, 1, 1, 1, 1, 1, 1, 1, 1, 1, 1, 1, 1, 1, 1, 1, 1, 1, 1, 1, 1, 1, 1, 1, 1, 1, 1, 1, 1, 1, 1, 1, 1, 1, 1, 1, 1, 1, 1, 1, 1, 1, 1, 1, 1, 1, 1, 1, 1, 1, 1, 1, 1, 1, 1, 1, 1, 1, 1, 1, 1, 1, 1, 1, 1, 1, 1, 1, 1, 1, 1, 1, 1, 1, 1, 1, 1, 1, 1, 1, 1, 1, 1, 1, 1, 1, 1, 1, 1, 1, 1, 1, 1, 1, 1, 1, 1, 1, 1, 1, 1, 1, 1, 1, 1, 1, 1, 1, 1, 1, 1, 1, 1, 1, 1, 1, 1, 1, 1, 1, 1, 1, 1, 1, 1, 1, 1, 1";

pub const TOO_MANY_NODES: &str =
    "select a + a + a + a + a + a + a + a + a + a + a + a + a + a + a + a + a + a + a + a + a + a + a + a + a + a + a + a + a + a + a + a + a + a + a + a + a + a + a + a + a + a + a + a + a + a + a + a + a from t
select a, b, c from t where a not in (1, 1, 1, 1, 1, 1, 1, 1, 1, 1, 1, 1, 1, 1, 1, 1, 1, 1, 1, 1, 1, 1, 1, 1, 1, 1, 1, 1, 1, 1, 1)
select a from t where a in (1, 1, 1, 1, 1, 1, 1, 1, 1, 1, 1, 1, 1, 1, 1, 1, 1, 1, 1, 1, 1, 1, 1, 1, 1, 1, 1, 1, 1, 1, 1, 1)
select a between 1 and 2, a between 1 and 2, a between 1 and 2, a between 1 and 2, a between 1 and 2, a between 1 and 2, a between 1 and 2, a between 1 and 2, a between 1 and 2, a between 1 and 2, a between 1 and 2, a between 1 and 2, a between 1 and 2, a between 1 and 2, a between 1 and 2, a not between 1 and 2 from t
update t set a = a + a + a + a + a + a + a + a + a + a + a + a + a + a + a + a + a + a + a + a + a + a + a + a + a + a + a + a + a + a + a + a + a + a + a + a + a + a + a + a + a + a + a + a + a + a + a + a + a
update t set a = a + a + a + a + a + a + a + a + a + a + a + a + a + a + a + a + a + a + a + a + a + a + a + a where a - a - a - a - a - a - a - a - a - a - a - a - a - a - a - a - a - a - a - a - a - a - a - a - a is null
delete from t where a * a * a * a * a * a * a * a * a * a * a * a * a * a * a * a * a * a * a * a * a * a * a * a * a * a * a * a * a * a * a * a * a * a * a * a * a * a * a * a * a * a * a * a * a * a * a * a * a
delete from t where not a + a + a + a + a + a + a + a + a + a + a + a + a + a + a + a + a + a + a + a + a + a + a + a + a + a + a + a + a + a + a + a + a + a + a + a + a + a + a + a + a + a + a + a + a + a + a + a is null
open c for select - a from t where a or a or a or a or a or a or a or a or a or a or a or a or a or a or a or a or a or a or a or a or a or a or a or a or a or a or a or a or a or a or a or a or a or a or a or a or a or a or a or a or a or a or a or a or a or a or a or a
select a, a, a, a, a, a, a, a, a, a, a, a, a, a, a, a from t where a and a and a and a and a and a and a and a and a and a and a and a and a and a and a and a and a and a and a and a and a and a and a and a and a and a and a and a and a group by a, a, a, a, a, a, a, a, a, a, a, a, a, a, a, a order by b, b, b, b, b, b, b, b
select a + a + a + a + a + a + a + a + a + a + a + a + a + a + a + a + a + a + a + a + a + a + a + a + a + a + a + a + a + a + a + a + a + a + a + a + a + a + a + a + a + a + a + a + a + a + a + a + a + a + a + a + a + a + a + a + a + a + a + a + a + a + a + a + a + a + a + a + a + a + a + a + a + a + a + a + a + a + a + a + a + a + a + a + a + a + a + a + a + a + a + a + a + a + a + a + a + a + a + a + a + a + a + a + a + a + a + a + a + a + a + a + a + a + a + a + a + a + a + a + a + a + a + a + a + a + a + a + a + a + a + a + a + a + a + a + a + a + a + a + a + a + a + a + a + a + a + a + a + a + a + a + a + a + a + a + a + a + a + a + a + a + a + a + a + a + a + a + a + a + a + a + a + a + a + a + a + a + a + a + a + a + a + a + a + a + a + a + a + a + a + a + a + a + a + a + a + a + a + a + a + a + a + a + a + a + a + a + a + a + a + a + a + a + a + a + a + a + a + a + a + a + a + a + a + a + a + a + a + a + a + a + a + a + a + a + a + a + a + a + a + a + a + a + a + a + a + a + a + a + a + a + a + a + a + a + a + a + a + a + a + a + a + a + a + a + a + a + a + a + a + a + a + a + a + a + a + a + a + a + a + a + a + a + a + a + a + a + a + a + a + a + a + a + a + a + a + a + a + a from t";

/// The words of commands that are names everywhere else.
pub const COMMAND_WORDS: &str = "OPEN
FOR
START
WORK
FETCH
CLOSE
POOL
MPL
SHOW
MEMORY
VACUUM";

/// The words that are no names.
pub const KEYWORDS: &str = "ALL
AND
AS
ASC
BETWEEN
BIGINT
BY
COUNT
CREATE
CROSS
DELETE
DESC
DISTINCT
EXISTS
FROM
GROUP
HAVING
IN
INDEX
INNER
INSERT
INT
INTEGER
INTO
IS
JOIN
KEY
LEFT
MAX
MIN
NOT
NULL
ON
OR
ORDER
OUTER
PRIMARY
SELECT
SET
SUM
TABLE
UNIQUE
UPDATE
VALUES
VARCHAR
WHERE";

/// Lines that are refused when much of them was read.
pub const REFUSED: &str = "insert into t (a, b) values (1, 'x'), (2, 'y') z
insert into t (a, b) values (1, 'x'), (100000000000000000000000000000000000000, 'y')
insert into t (aaaaaaaaaaaaaaaaaaaaaaaaaaaaaaa, b) values (1, 'x'), (2, 'y')
insert into t (a, b) values (1, 'x'), (2, 'y
select 'a' + 'b' from t where c in (1, 2, 'd') order by
update t set a = 'x', b = 100000000000000000000000000000000000000
create table t (a int, b varchar(256))";
