//! Worked rows of whole runs, each worked out by hand from the rules of `docs/LANGUAGE.md`.
//!
//! A row begins with a line `==`. Then comes the input, in which `~N:UNIT~` stands for N copies of UNIT, `#` in a copy for
//! its number from 1, and `^` for the number before. Then come runs of it, each with a line `-- WORDS => STATUS` and what
//! is written, in which `...` stands for anything, twice at the most. `fails K` behind the words lets the loader's call K
//! fail, and `asks M faults N` behind the status says how often the loader is asked in the run, and how often it fails.
//! The line feed before `==` and `--` belongs to neither the input nor what is written.

/// Components alone.
pub const PAGES: &str = r#"
==
component 1
signal a = 2
memo b = a * 3
<p>{b}</p>

-- => 0
<p>6</p>
-- --rounds 3 -a => 0
<p>6</p>
==
component 1
-- -a => 0

==
component 1
signal a = 2147483647
<p>{a + 1}{1 / 0}{-2147483648 / -1}</p>
-- -a => 0
<p>21474836472147483647</p>
==
component 1
signal a = 2147483647
memo b = a + 1
<p>{b}</p>
-- => 0
<p>2147483647</p>
==
component 1
signal t = "<&\""
<p title={t}>{t}"<&\""</p>
-- -a => 0
<p title="&lt;&amp;&quot;">&lt;&amp;"&lt;&amp;"</p>
==
component 1
<p><br></p>
-- -a => 0
<p><br></p>
==
component 1
effect e = 1
<p></p>
---

-- -a => 0
<p></p>
==
component 1
<p></p>
---
phase
phase lane
-- -a => 0
<p></p>
==
component 1
signal user = "Ann"
signal done = 1
store todos max 50 { title = "" ok = 0 }
memo left = 3 - done
<main class="app">
 <h1>"Todos of " {user}</h1>
 if left { <p>{left} " left"</p> }
 <ul>each todos { <li data-id={row.key}>{row.title} if row.ok { " (done)" }</li> }</ul>
 area help { signal text = "Press & type" <footer>{text}</footer> cleanup "help closed" }
</main>

-- -a => 0
<main class="app"><h1>Todos of Ann</h1><p>2 left</p><ul></ul><footer>Press &amp; type</footer></main>"#;

/// Inputs that get a line in place of a page.
pub const LINES: &str = r#"
==

-- => 3
bad text 3 at 1:1

==
component 9
-- => 3
bad text 3 at 1:11

==
component 1
<p><br></br></p>
-- => 3
bad text 11 at 2:10

==
component 1
</br>
-- => 3
bad text 3 at 2:1

==
component 1
<p>
-- => 3
bad text 11 at 2:4

==
component 1
signal a = 2147483648
-- => 3
bad text 7 at 2:12

==
component 1
<script></script>
-- => 3
bad text 6 at 2:2

==
component 1
signal a = 1
---
phase lane set b = 1
-- => 3
bad text 4 at 4:16

==
component 1
signal a = 1
---
phase lane get
-- => 3
bad text 3 at 4:15

==
component 1
memo b = c
<p>{b}</p>
-- => 3
bad text 4 at 2:10

==
component 1
resource r after 0 { 1 => 2 }
load x = r(1)
---
lane
-- => 3
bad text 3 at 5:1

==
component 1
resource r after 1 { 1 => 2 }
area a { area b { load x = r(1) } }
-- => 4
waiting a.b.x

==
component 1
signal a = 1
---
phase lane set a = 2 lane
-- => 20
not built

==
component 1
---
phase lane lane lane lane lane lane lane lane lane lane lane lane lane lane lane lane
-- => 20
not built

==
component 1
---
phase lane lane lane lane lane lane lane lane lane lane lane lane lane lane lane lane lane
-- => 3
bad text 10 at 3:87
"#;

/// Signals and memos.
pub const SCRIPTS: &str = r#"
==
component 1
signal c = 1
signal a = 5
signal b = 7
memo m = if c then a else b
<p>{m}</p>
---
phase lane set b = 8 get m
-- -a => 0
1.1.1 set 1
1.1.2 get 5 at 0
journal 1.1 write 2 8
<p>5</p>
==
component 1
signal a = 1
memo p = a % 2
memo q = p + 10
<p>{q}</p>
---
phase lane set a = 3 get q
-- -a => 0
1.1.1 set 1
1.1.2 get 11 at 0
journal 1.1 write 0 3
<p>11</p>
==
component 1
signal a = 1
memo b = a + 1
<p>{b}</p>
---
phase lane set a = 1 set a = 1 get b
-- -a => 0
1.1.1 set 1
1.1.2 set 2
1.1.3 get 2 at 0
journal 1.1 write 0 1
journal 1.2 write 0 1
<p>2</p>
==
component 1
signal a = 1
memo b = a + 1
memo c = a + 2
memo d = b + c
<p>{d}</p>
---
phase lane set a = 10 get d
-- -a => 0
1.1.1 set 1
1.1.2 get 23 at 4
journal 1.1 write 0 10
journal 1.2 change 1 11
journal 1.3 change 2 12
journal 1.4 change 3 23
<p>23</p>
==
component 1
signal a = 1
memo b = a * 2
<p>{b}</p>
---
phase lane set a = 5 get b
phase lane get b set a = 7 get a get b
-- -a => 0
1.1.1 set 1
1.1.2 get 10 at 2
journal 1.1 write 0 5
journal 1.2 change 1 10
2.1.1 get 10 at 0
2.1.2 set 1
2.1.3 get 7 at 1
2.1.4 get 14 at 2
journal 2.1 write 0 7
journal 2.2 change 1 14
<p>14</p>
==
component 1
store s max 4 { t = 0 }
<p></p>
---
phase lane set s[7].t = 1 get s[7].t
-- -a => 0
1.1.1 norow
1.1.2 norow
<p></p>
==
component 1
signal a = 0
area side {
signal t = ""
<i>{t}</i>
}
---
phase lane set side.t = "a\"b" get side.t get a
-- -a => 0
1.1.1 set 1
1.1.2 get "a\"b" at 1
1.1.3 get 0 at 0
journal 1.1 write 1 "a\"b"
<i>a"b</i>
==
component 1
signal c = 0
if c {<p>"on"</p>}
---
phase lane set c = 1
-- => 0
<p>on</p>
-- -a => 0
1.1.1 set 1
journal 1.1 write 0 1
<p>on</p>"#;

/// Areas, effects and cleanups.
pub const AREAS: &str = r#"
==
component 1
area side {
signal x = 1
cleanup "bye"
<i>{x}</i>
}
<b>"end"</b>
---
phase lane dispose side dispose side set side.x = 2
-- -a => 0
1.1.1 dispose now 1 before 0
1.1.2 dispose now 0 before 1
1.1.3 disposed 1
journal 1.1 disposed 1
cleanup "bye"
<b>end</b>
==
component 1
area side {
signal x = 1
cleanup "bye"
<i>{x}</i>
}
<b>"end"</b>
---
phase lane dispose side dispose side set side.x = 2
phase
-- -a => 0
1.1.1 dispose now 1 before 0
1.1.2 dispose now 0 before 1
1.1.3 disposed 1
journal 1.1 disposed 1
cleanup "bye"
<b>end</b>
==
component 1
area a { area b { signal y = 1 } signal x = 2 }
---
phase lane dispose a.b dispose a
-- -a => 0
1.1.1 dispose now 1 before 0
1.1.2 dispose now 1 before 1
journal 1.1 disposed 2
journal 1.2 disposed 1

==
component 1
area a { area b {} }
---
phase lane dispose a
phase lane dispose a dispose a.b
-- -a => 0
1.1.1 dispose now 2 before 0
journal 1.1 disposed 2
journal 1.2 disposed 1
2.1.1 dispose now 0 before 2
2.1.2 dispose now 0 before 1

==
component 1
area a { cleanup "a" area b { cleanup "b" } }
---
phase lane dispose a.b
phase lane dispose a dispose a.b
-- -a => 0
1.1.1 dispose now 1 before 0
journal 1.1 disposed 2
cleanup "b"
2.1.1 dispose now 1 before 1
2.1.2 dispose now 0 before 1
journal 2.1 disposed 1
cleanup "a"

==
component 1
<p>area a { signal x = 1 {x} }</p>
---
phase lane set a.x = 2
phase lane dispose a
phase lane get a.x
-- -a => 0
1.1.1 set 1
journal 1.1 write 0 2
2.1.1 dispose now 1 before 0
journal 2.1 disposed 1
3.1.1 disposed 1
<p></p>
==
component 1
signal a = 1
effect log = a * 10
---
phase lane pump set a = 2 pump pump
-- -a => 0
1.1.1 pump ran 1 same 0 gone 0 left 0
1.1.2 set 2
1.1.3 pump ran 1 same 0 gone 0 left 0
1.1.4 pump ran 0 same 1 gone 0 left 0
journal 1.1 ran 1 10
journal 1.2 write 0 2
journal 1.3 ran 1 20

==
component 1
area side { signal x = 1 effect e = x }
---
phase lane dispose side pump
-- -a => 0
1.1.1 dispose now 1 before 0
1.1.2 pump ran 0 same 0 gone 1 left 0
journal 1.1 disposed 1

==
component 1
area a { signal x = 1 area b { effect e = x } }
---
phase lane pump dispose a pump
-- -a => 0
1.1.1 pump ran 1 same 0 gone 0 left 0
1.1.2 dispose now 2 before 0
1.1.3 pump ran 0 same 0 gone 1 left 0
journal 1.1 ran 1 1
journal 1.2 disposed 2
journal 1.3 disposed 1

==
component 1
signal a = 1
effect e = a
---
phase lane pump
phase lane pump set a = 2
phase lane pump
-- -a => 0
1.1.1 pump ran 1 same 0 gone 0 left 0
journal 1.1 ran 1 1
2.1.1 pump ran 0 same 1 gone 0 left 0
2.1.2 set 1
journal 2.1 write 0 2
3.1.1 pump ran 1 same 0 gone 0 left 0
journal 3.1 ran 1 2

==
component 1
signal s = 0
signal f = 0
memo c = s
memo m = f
effect z = if c then m else s
---
phase lane pump set s = 1 pump
phase lane set f = 1 set s = 2 get m pump
-- -a => 0
1.1.1 pump ran 1 same 0 gone 0 left 0
1.1.2 set 2
1.1.3 pump ran 1 same 0 gone 0 left 0
journal 1.1 ran 4 0
journal 1.2 write 0 1
journal 1.3 ran 4 0
journal 1.4 change 2 1
2.1.1 set 1
2.1.2 set 2
2.1.3 get 1 at 3
2.1.4 pump ran 1 same 0 gone 0 left 0
journal 2.1 write 1 1
journal 2.2 write 0 2
journal 2.3 change 3 1
journal 2.4 change 2 2
journal 2.5 ran 4 1
"#;

/// Stores and their edits.
pub const STORES: &str = r#"
==
component 1
store items max 4 { title = "" }
<ul>each items {<li>{row.title}</li>}</ul>
---
phase lane insert items 1 { title = "a" } insert items 2 { title = "b" } insert items 3 { title = "c" }
phase lane move items 3 to 0 remove items 1
-- -a => 0
1.1.1 edit 1 done
1.1.2 edit 2 done
1.1.3 edit 3 done
journal 1.1 edit 1 0
journal 1.2 edit 1 1
journal 1.3 edit 1 2
2.1.1 edit 1 done
2.1.2 edit 2 done
journal 2.1 edit 1 0
journal 2.2 edit 1 1
<ul><li>c</li><li>b</li></ul>
==
component 1
store s max 1 { t = 0 }
each s {<p>{row.t}</p>}
---
phase lane insert s 1 { t = 5 } insert s 1 { t = 6 } insert s 2 { t = 7 }
-- -a => 0
1.1.1 edit 1 done
1.1.2 edit 2 present
1.1.3 edit 3 max
journal 1.1 edit 1 0
journal 1.2 edit 1 1
journal 1.3 edit 1 2
<p>5</p>
==
component 1
store items max 4 { title = "" }
each items { {row.title} }
---
phase lane insert items 7 { title = "a" } set items[7].title = "b"
phase lane set items[7].title = "c" remove items 8
-- -a => 0
1.1.1 edit 1 done
1.1.2 norow
journal 1.1 edit 1 0
2.1.1 set 1
2.1.2 edit 2 absent
journal 2.1 write 0 "c"
journal 2.2 edit 1 0
c
==
component 1
store s max 2 { t = 0 }
each s {<i>{row.t}</i>}
---
phase lane insert s 1 { t = 5 }
phase lane set s[1].t = 6 remove s 1 insert s 1 { t = 7 }
phase lane get s[1].t
-- -a => 0
1.1.1 edit 1 done
journal 1.1 edit 1 0
2.1.1 set 1
2.1.2 edit 2 done
2.1.3 edit 3 done
journal 2.1 write 0 6
journal 2.2 edit 1 0
journal 2.3 edit 1 1
3.1.1 get 7 at 0
<i>7</i>
==
component 1
store s max 2 { t = 0 }
each s {<i>{row.t}</i>}
---
phase lane insert s 1 {} insert s 2 { t = 5 } at 0
-- => 0
<i>5</i><i>0</i>
==
component 1
area side {
store s max 2 { t = 0 }
each s {<i>{row.t}</i>}
}
<b>"end"</b>
---
phase lane insert side.s 1 { t = 5 } dispose side insert side.s 2 { t = 6 }
-- -a => 0
1.1.1 edit 1 done
1.1.2 dispose now 1 before 0
1.1.3 disposed 1
journal 1.1 edit 1 0
journal 1.2 disposed 1
<b>end</b>
==
component 1
area side { store s max 2 { t = 0 } }
---
phase lane dispose side set side.s[1].t = 1
phase lane get side.s[1].t
-- -a => 0
1.1.1 dispose now 1 before 0
1.1.2 norow
journal 1.1 disposed 1
2.1.1 disposed 1

==
component 1
signal user = "Ann"
signal done = 1
store todos max 50 { title = "" ok = 0 }
memo left = 3 - done
<main class="app">
 <h1>"Todos of " {user}</h1>
 if left { <p>{left} " left"</p> }
 <ul>each todos { <li data-id={row.key}>{row.title} if row.ok { " (done)" }</li> }</ul>
 area help { signal text = "Press & type" <footer>{text}</footer> cleanup "help closed" }
</main>
---
phase
lane insert todos 1 { title = "Milk" } insert todos 2 { title = "Bread" ok = 1 } set done = 2
phase
lane set user = "Bob"
-- -a => 0
1.1.1 edit 1 done
1.1.2 edit 2 done
1.1.3 set 3
journal 1.1 edit 1 0
journal 1.2 edit 1 1
journal 1.3 write 1 2
2.1.1 set 1
journal 2.1 write 0 "Bob"
<main class="app"><h1>Todos of Bob</h1><p>1 left</p><ul><li data-id="1">Milk</li><li data-id="2">Bread (done)</li></ul><footer>Press &amp; type</footer></main>"#;

/// Loads.
pub const LOADS: &str = r#"
==
component 1
resource user after 2 { 1 => "Ann" }
signal id = 1
load who = user(id)
<p>{who}</p>
-- --rounds 1 => 4 asks 1 faults 0
waiting who

-- --rounds 2 => 4 asks 2 faults 0
waiting who

-- --rounds 3 => 0 asks 3 faults 0
<p>Ann</p>
-- --rounds 9 => 0 asks 3 faults 0
<p>Ann</p>
-- --rounds 1 fails 1 => 4 asks 1 faults 1
waiting who

-- --rounds 3 fails 1 => 0 asks 3 faults 1
<p>Ann</p>
-- --rounds 3 fails 2 => 0 asks 3 faults 1
<p>Ann</p>
-- --rounds 3 fails 3 => 4 asks 3 faults 1
waiting who

-- --rounds 4 fails 3 => 0 asks 4 faults 1
<p>Ann</p>
==
component 1
resource user after 0 { 1 => 7 }
resource mail after 0 { 7 => "x@y" }
signal id = 1
load u = user(id)
load m = mail(u)
<p>{m}</p>
-- --rounds 1 => 0 asks 2 faults 0
<p>x@y</p>
-- --rounds 1 fails 1 => 4 asks 2 faults 1
waiting u

-- --rounds 1 fails 2 => 4 asks 2 faults 1
waiting m

-- --rounds 2 fails 2 => 0 asks 3 faults 1
<p>x@y</p>
==
component 1
resource user after 1 { 1 => 7 }
resource mail after 0 { 7 => "x@y" }
signal id = 1
load u = user(id)
load m = mail(u)
<p>{m}</p>
-- --rounds 1 => 4 asks 2 faults 0
waiting u

-- --rounds 2 => 0 asks 4 faults 0
<p>x@y</p>
==
component 1
resource user after 5 { 1 => "Ann" }
area a { area b { load x = user(1) <i>{x}</i> } }
load y = user(2)
<b>{y}</b>
-- --rounds 1 => 4 asks 2 faults 0
waiting a.b.x
waiting y

-- --rounds 6 => 0 asks 12 faults 0
<i>Ann</i><b></b>
==
component 1
resource user after 1 { 1 => "Ann" 2 => "Bob" }
signal id = 1
load who = user(id)
<p>{who}</p>
---
phase lane get who set id = 2
phase lane get who
-- -a --rounds 2 => 0
1.1.1 get "Ann" at 0
1.1.2 set 1
journal 1.1 write 0 2
2.1.1 get "Bob" at 0
<p>Bob</p>
-- -a --rounds 1 => 0
1.1.1 get empty at 0
1.1.2 set 1
journal 1.1 write 0 2
2.1.1 get empty at 0
<p>Bob</p>
==
component 1
resource user after 1 { 1 => "Ann" 2 => "Bob" }
signal id = 1
load who = user(id)
<p>{who}</p>
---
phase lane set id = 2
-- -a => 4
1.1.1 set 1
journal 1.1 write 0 2
waiting who

==
component 1
resource user after 1 { 1 => "Ann" 2 => "Bob" }
signal id = 1
load who = user(id)
<p>{who}</p>
---
phase
-- -a => 0
<p>Ann</p>
==
component 1
resource user after 1 { 1 => "Ann" 2 => "Bob" }
signal id = 1
load who = user(id)
<p>{who}</p>
---
phase lane set id = 3
-- -a --rounds 2 => 0
1.1.1 set 1
journal 1.1 write 0 3
<p></p>
==
component 1
resource user after 1 { 1 => "Ann" 2 => "Bob" }
signal id = 1
load who = user(id)
<p>{who}</p>
---
phase
phase lane set id = 2 set id = 1
-- -a => 0
2.1.1 set 1
2.1.2 set 2
journal 2.1 write 0 2
journal 2.2 write 0 1
<p>Ann</p>
==
component 1
resource user after 1 { 1 => "Ann" 2 => "Bob" }
signal id = 1
load who = user(id)
<p>{who}</p>
---
phase
phase lane set id = 2
-- -a => 4
2.1.1 set 1
journal 2.1 write 0 2
waiting who

==
component 1
resource user after 1 { 1 => "Ann" }
signal id = 1
load who = user(id)
effect e = who
---
phase lane pump
phase lane pump pump
-- -a => 0
1.1.1 pump ran 1 same 0 gone 0 left 0
journal 1.1 ran 3 empty
2.1.1 pump ran 1 same 0 gone 0 left 0
2.1.2 pump ran 0 same 1 gone 0 left 0
journal 2.1 ran 3 "Ann"

==
component 1
resource user after 9 { 1 => "Ann" }
signal id = 1
area side { load who = user(id) <i>{who}</i> }
<b>"end"</b>
---
phase lane dispose side
-- -a => 0
1.1.1 dispose now 1 before 0
journal 1.1 disposed 1
<b>end</b>
==
component 1
resource user after 9 { 1 => "Ann" }
signal id = 1
area side { load who = user(id) <i>{who}</i> }
<b>"end"</b>
---
phase lane set id = 2
-- -a => 4
1.1.1 set 1
journal 1.1 write 0 2
waiting side.who

==
component 1
resource user after 0 { 1 => "Ann" }
signal id = 1
load who = user(id)
area side { signal x = 1 }
<p>{who}</p>
---
phase lane dispose side
phase lane get who
-- -a => 0
1.1.1 dispose now 1 before 0
journal 1.1 disposed 1
2.1.1 get "Ann" at 0
<p>Ann</p>
==
component 1
resource user after 1 { 0 => "even" 1 => "odd" }
signal n = 0
load who = user(n)
<p>{who}</p>
---
~32: phase lane set n = 1 phase lane set n = 0~
-- -a => 4 asks 65 faults 0
1.1.1 set 1
journal 1.1 write 0 1
2.1.1 set 1
...
64.1.1 set 1
journal 64.1 write 0 0
waiting who

==
component 1
resource user after 1 { 0 => "even" 1 => "odd" }
signal n = 0
load who = user(n)
<p>{who}</p>
---
~31: phase lane set n = 1 phase lane set n = 0~ phase lane set n = 1 phase
-- -a => 0 asks 65 faults 0
1.1.1 set 1
journal 1.1 write 0 1
2.1.1 set 1
...
63.1.1 set 1
journal 63.1 write 0 1
<p>odd</p>"#;

/// Inputs at the limits.
pub const LARGE: &str = r#"
==
component 1
signal a = 1
memo m0 = a~4093:
memo m# = m^ + 1~
<p>{m4093}</p>
---
phase lane set a = 2 get m4093
-- -a => 0
1.1.1 set 1
1.1.2 get 4095 at 4095
journal 1.1 write 0 2
journal 1.2 change 1 2
...
journal 1.4095 change 4094 4095
<p>4095</p>
==
component 1
signal a = 0
<p>{a}</p>
---
phase lane~65536: set a = 1~ set a = 2
-- -a => 0
1.1.1 set 1
...
1.1.65536 set 65536
1.1.65537 full 65537
journal 1.1 write 0 1
...
journal 1.65536 write 0 1
<p>1</p>
==
component 1
signal a = 0
effect e = a
area side { signal x = 1 }
<p>{a}</p>
---
phase lane~65536: set a = 1~ pump dispose side
phase lane pump
-- -a => 0
1.1.1 set 1
...
1.1.65536 set 65536
1.1.65537 pump ran 0 same 0 gone 0 left 1
1.1.65538 dispose now 1 before 0
journal 1.1 write 0 1
...
journal 1.65536 write 0 1
journal 1.65538 disposed 1
2.1.1 pump ran 1 same 0 gone 0 left 0
journal 2.1 ran 1 1
<p>1</p>
==
component 1
store s max 4096 {}
each s { {row.key} " " }
---
phase lane~4096: insert s # {}~ insert s 0 {}
phase lane move s 4096 to 0 remove s 1
-- -a => 0
1.1.1 edit 1 done
...
1.1.4096 edit 4096 done
1.1.4097 edit 4097 max
journal 1.1 edit 1 0
... 4094 4095 
-- -a => 0
1.1.1 edit 1 done
...
journal 1.4097 edit 1 4096
2.1.1 edit 1 done
2.1.2 edit 2 done
journal 2.1 edit 1 0
journal 2.2 edit 1 1
4096 2 3 4 5 ... 4094 4095 
==
component 1~1048565: ~
-- => 0

==
component 1~1048566: ~
-- => 8
too long

==
~1048577: ~
-- => 8
too long
"#;
