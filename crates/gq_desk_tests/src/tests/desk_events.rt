//! Lists of events for a desk with workers, as `event_lists` judges them.

/// The line on which they begin.
pub const FIRST_LINE: usize = 6;

pub const EVENTS: &str = r#"# Lists of events that a desk with workers takes.
#
# `workers N` begins a list. An event is `->` with a body from the client; `done NUMBER of TASK seeing TEXTS` for what a worker made of a job,
# where the task is that of the job of a number or of a request's body, and the texts are the documents of now or those as the job of a
# number was handed on, `with KEY VERSION TEXT` in place of one of them; `load KEY text TEXT`, `load KEY gone` and `load KEY unfit` for a file
# that was loaded; or `end border` and `end fault` for the end of the input. The lines
# behind an event are all that is put out for it, in order: `<-` with a body to the client, `put` and `close` for what workers are to see,
# `job NUMBER` for a job that is handed on, and `stop STATUS`.

# A change decides what is pending. A result that comes later is of no use.
workers 2
-> {"id":0,"jsonrpc":"2.0","method":"initialize","params":{"capabilities":{"workspace":{"workspaceEdit":{"documentChanges":true}}},"processId":null,"rootUri":null}}
<- {"id":0,"jsonrpc":"2.0","result":{"capabilities":{"renameProvider":true,"textDocumentSync":{"change":2,"openClose":true}},"serverInfo":{"name":"gqls"}}}
-> {"jsonrpc":"2.0","method":"textDocument/didOpen","params":{"textDocument":{"languageId":"graphql","text":"type Query{x:Int}","uri":"file:///s.graphql","version":1}}}
put file:///s.graphql 1
-> {"jsonrpc":"2.0","method":"textDocument/didOpen","params":{"textDocument":{"languageId":"graphql","text":"query Q{...A} fragment A on Query{x}","uri":"file:///q.graphql","version":1}}}
put file:///q.graphql 1
-> {"id":7,"jsonrpc":"2.0","method":"textDocument/rename","params":{"newName":"B","position":{"character":11,"line":0},"textDocument":{"uri":"file:///q.graphql"}}}
job 1
-> {"jsonrpc":"2.0","method":"textDocument/didChange","params":{"contentChanges":[{"text":"type Query{x:Int}"}],"textDocument":{"uri":"file:///s.graphql","version":2}}}
<- {"error":{"code":-32801,"message":"content modified"},"id":7,"jsonrpc":"2.0"}
put file:///s.graphql 2
done 1 of 1 seeing 1

# Results about documents as they were are passed over, and one about those of now is taken once.
workers 2
-> {"id":0,"jsonrpc":"2.0","method":"initialize","params":{"capabilities":{"workspace":{"workspaceEdit":{"documentChanges":true}}},"processId":null,"rootUri":null}}
<- {"id":0,"jsonrpc":"2.0","result":{"capabilities":{"renameProvider":true,"textDocumentSync":{"change":2,"openClose":true}},"serverInfo":{"name":"gqls"}}}
-> {"jsonrpc":"2.0","method":"textDocument/didOpen","params":{"textDocument":{"languageId":"graphql","text":"type Query{x:Int}","uri":"file:///s.graphql","version":1}}}
put file:///s.graphql 1
-> {"jsonrpc":"2.0","method":"textDocument/didOpen","params":{"textDocument":{"languageId":"graphql","text":"query Q{...A} fragment A on Query{x}","uri":"file:///q.graphql","version":1}}}
put file:///q.graphql 1
-> {"id":7,"jsonrpc":"2.0","method":"textDocument/rename","params":{"newName":"B","position":{"character":11,"line":0},"textDocument":{"uri":"file:///q.graphql"}}}
job 1
-> {"jsonrpc":"2.0","method":"textDocument/didClose","params":{"textDocument":{"uri":"file:///q.graphql"}}}
<- {"error":{"code":-32801,"message":"content modified"},"id":7,"jsonrpc":"2.0"}
close file:///q.graphql
-> {"jsonrpc":"2.0","method":"textDocument/didOpen","params":{"textDocument":{"languageId":"graphql","text":"query Q{x ...A} fragment A on Query{x}","uri":"file:///q.graphql","version":1}}}
put file:///q.graphql 1
-> {"id":8,"jsonrpc":"2.0","method":"textDocument/rename","params":{"newName":"B","position":{"character":13,"line":0},"textDocument":{"uri":"file:///q.graphql"}}}
job 2
done 1 of 1 seeing 1
done 2 of 2 seeing now
<- {"id":8,"jsonrpc":"2.0","result":{"documentChanges":[{"edits":[{"newText":"B","range":{"end":{"character":14,"line":0},"start":{"character":13,"line":0}}},{"newText":"B","range":{"end":{"character":26,"line":0},"start":{"character":25,"line":0}}}],"textDocument":{"uri":"file:///q.graphql","version":1}}]}}
done 2 of 2 seeing now

# A cancel decides its request, once, and a shutdown all that are left.
workers 2
-> {"id":0,"jsonrpc":"2.0","method":"initialize","params":{"capabilities":{"workspace":{"workspaceEdit":{"documentChanges":true}}},"processId":null,"rootUri":null}}
<- {"id":0,"jsonrpc":"2.0","result":{"capabilities":{"renameProvider":true,"textDocumentSync":{"change":2,"openClose":true}},"serverInfo":{"name":"gqls"}}}
-> {"jsonrpc":"2.0","method":"textDocument/didOpen","params":{"textDocument":{"languageId":"graphql","text":"type Query{x:Int}","uri":"file:///s.graphql","version":1}}}
put file:///s.graphql 1
-> {"jsonrpc":"2.0","method":"textDocument/didOpen","params":{"textDocument":{"languageId":"graphql","text":"query Q{...A} fragment A on Query{x}","uri":"file:///q.graphql","version":1}}}
put file:///q.graphql 1
-> {"id":4,"jsonrpc":"2.0","method":"textDocument/rename","params":{"newName":"B","position":{"character":11,"line":0},"textDocument":{"uri":"file:///q.graphql"}}}
job 1
-> {"id":5,"jsonrpc":"2.0","method":"textDocument/rename","params":{"newName":"B","position":{"character":11,"line":0},"textDocument":{"uri":"file:///q.graphql"}}}
job 2
-> {"jsonrpc":"2.0","method":"$/cancelRequest","params":{"id":4}}
<- {"error":{"code":-32800,"message":"cancelled"},"id":4,"jsonrpc":"2.0"}
-> {"jsonrpc":"2.0","method":"$/cancelRequest","params":{"id":4}}
-> {"id":6,"jsonrpc":"2.0","method":"shutdown"}
<- {"error":{"code":-32803,"message":"shutdown"},"id":5,"jsonrpc":"2.0"}
<- {"id":6,"jsonrpc":"2.0","result":null}
done 2 of 2 seeing now
-> {"jsonrpc":"2.0","method":"exit"}
stop 0

# 64 questions may be pending, and 64 jobs out: a job is out until the first result of its number, whatever that is.
workers 2
-> {"id":0,"jsonrpc":"2.0","method":"initialize","params":{"capabilities":{"workspace":{"workspaceEdit":{"documentChanges":true}}},"processId":null,"rootUri":null}}
<- {"id":0,"jsonrpc":"2.0","result":{"capabilities":{"renameProvider":true,"textDocumentSync":{"change":2,"openClose":true}},"serverInfo":{"name":"gqls"}}}
-> {"jsonrpc":"2.0","method":"textDocument/didOpen","params":{"textDocument":{"languageId":"graphql","text":"type Query{x:Int}","uri":"file:///s.graphql","version":1}}}
put file:///s.graphql 1
-> {"jsonrpc":"2.0","method":"textDocument/didOpen","params":{"textDocument":{"languageId":"graphql","text":"query Q{...A} fragment A on Query{x}","uri":"file:///q.graphql","version":1}}}
put file:///q.graphql 1
-> {"id":1,"jsonrpc":"2.0","method":"textDocument/hover","params":{"position":{"character":0,"line":0},"textDocument":{"uri":"file:///q.graphql"}}}
job 1
-> {"id":2,"jsonrpc":"2.0","method":"textDocument/hover","params":{"position":{"character":0,"line":0},"textDocument":{"uri":"file:///q.graphql"}}}
job 2
-> {"id":3,"jsonrpc":"2.0","method":"textDocument/hover","params":{"position":{"character":0,"line":0},"textDocument":{"uri":"file:///q.graphql"}}}
job 3
-> {"id":4,"jsonrpc":"2.0","method":"textDocument/hover","params":{"position":{"character":0,"line":0},"textDocument":{"uri":"file:///q.graphql"}}}
job 4
-> {"id":5,"jsonrpc":"2.0","method":"textDocument/hover","params":{"position":{"character":0,"line":0},"textDocument":{"uri":"file:///q.graphql"}}}
job 5
-> {"id":6,"jsonrpc":"2.0","method":"textDocument/hover","params":{"position":{"character":0,"line":0},"textDocument":{"uri":"file:///q.graphql"}}}
job 6
-> {"id":7,"jsonrpc":"2.0","method":"textDocument/hover","params":{"position":{"character":0,"line":0},"textDocument":{"uri":"file:///q.graphql"}}}
job 7
-> {"id":8,"jsonrpc":"2.0","method":"textDocument/hover","params":{"position":{"character":0,"line":0},"textDocument":{"uri":"file:///q.graphql"}}}
job 8
-> {"id":9,"jsonrpc":"2.0","method":"textDocument/hover","params":{"position":{"character":0,"line":0},"textDocument":{"uri":"file:///q.graphql"}}}
job 9
-> {"id":10,"jsonrpc":"2.0","method":"textDocument/hover","params":{"position":{"character":0,"line":0},"textDocument":{"uri":"file:///q.graphql"}}}
job 10
-> {"id":11,"jsonrpc":"2.0","method":"textDocument/hover","params":{"position":{"character":0,"line":0},"textDocument":{"uri":"file:///q.graphql"}}}
job 11
-> {"id":12,"jsonrpc":"2.0","method":"textDocument/hover","params":{"position":{"character":0,"line":0},"textDocument":{"uri":"file:///q.graphql"}}}
job 12
-> {"id":13,"jsonrpc":"2.0","method":"textDocument/hover","params":{"position":{"character":0,"line":0},"textDocument":{"uri":"file:///q.graphql"}}}
job 13
-> {"id":14,"jsonrpc":"2.0","method":"textDocument/hover","params":{"position":{"character":0,"line":0},"textDocument":{"uri":"file:///q.graphql"}}}
job 14
-> {"id":15,"jsonrpc":"2.0","method":"textDocument/hover","params":{"position":{"character":0,"line":0},"textDocument":{"uri":"file:///q.graphql"}}}
job 15
-> {"id":16,"jsonrpc":"2.0","method":"textDocument/hover","params":{"position":{"character":0,"line":0},"textDocument":{"uri":"file:///q.graphql"}}}
job 16
-> {"id":17,"jsonrpc":"2.0","method":"textDocument/hover","params":{"position":{"character":0,"line":0},"textDocument":{"uri":"file:///q.graphql"}}}
job 17
-> {"id":18,"jsonrpc":"2.0","method":"textDocument/hover","params":{"position":{"character":0,"line":0},"textDocument":{"uri":"file:///q.graphql"}}}
job 18
-> {"id":19,"jsonrpc":"2.0","method":"textDocument/hover","params":{"position":{"character":0,"line":0},"textDocument":{"uri":"file:///q.graphql"}}}
job 19
-> {"id":20,"jsonrpc":"2.0","method":"textDocument/hover","params":{"position":{"character":0,"line":0},"textDocument":{"uri":"file:///q.graphql"}}}
job 20
-> {"id":21,"jsonrpc":"2.0","method":"textDocument/hover","params":{"position":{"character":0,"line":0},"textDocument":{"uri":"file:///q.graphql"}}}
job 21
-> {"id":22,"jsonrpc":"2.0","method":"textDocument/hover","params":{"position":{"character":0,"line":0},"textDocument":{"uri":"file:///q.graphql"}}}
job 22
-> {"id":23,"jsonrpc":"2.0","method":"textDocument/hover","params":{"position":{"character":0,"line":0},"textDocument":{"uri":"file:///q.graphql"}}}
job 23
-> {"id":24,"jsonrpc":"2.0","method":"textDocument/hover","params":{"position":{"character":0,"line":0},"textDocument":{"uri":"file:///q.graphql"}}}
job 24
-> {"id":25,"jsonrpc":"2.0","method":"textDocument/hover","params":{"position":{"character":0,"line":0},"textDocument":{"uri":"file:///q.graphql"}}}
job 25
-> {"id":26,"jsonrpc":"2.0","method":"textDocument/hover","params":{"position":{"character":0,"line":0},"textDocument":{"uri":"file:///q.graphql"}}}
job 26
-> {"id":27,"jsonrpc":"2.0","method":"textDocument/hover","params":{"position":{"character":0,"line":0},"textDocument":{"uri":"file:///q.graphql"}}}
job 27
-> {"id":28,"jsonrpc":"2.0","method":"textDocument/hover","params":{"position":{"character":0,"line":0},"textDocument":{"uri":"file:///q.graphql"}}}
job 28
-> {"id":29,"jsonrpc":"2.0","method":"textDocument/hover","params":{"position":{"character":0,"line":0},"textDocument":{"uri":"file:///q.graphql"}}}
job 29
-> {"id":30,"jsonrpc":"2.0","method":"textDocument/hover","params":{"position":{"character":0,"line":0},"textDocument":{"uri":"file:///q.graphql"}}}
job 30
-> {"id":31,"jsonrpc":"2.0","method":"textDocument/hover","params":{"position":{"character":0,"line":0},"textDocument":{"uri":"file:///q.graphql"}}}
job 31
-> {"id":32,"jsonrpc":"2.0","method":"textDocument/hover","params":{"position":{"character":0,"line":0},"textDocument":{"uri":"file:///q.graphql"}}}
job 32
-> {"id":33,"jsonrpc":"2.0","method":"textDocument/hover","params":{"position":{"character":0,"line":0},"textDocument":{"uri":"file:///q.graphql"}}}
job 33
-> {"id":34,"jsonrpc":"2.0","method":"textDocument/hover","params":{"position":{"character":0,"line":0},"textDocument":{"uri":"file:///q.graphql"}}}
job 34
-> {"id":35,"jsonrpc":"2.0","method":"textDocument/hover","params":{"position":{"character":0,"line":0},"textDocument":{"uri":"file:///q.graphql"}}}
job 35
-> {"id":36,"jsonrpc":"2.0","method":"textDocument/hover","params":{"position":{"character":0,"line":0},"textDocument":{"uri":"file:///q.graphql"}}}
job 36
-> {"id":37,"jsonrpc":"2.0","method":"textDocument/hover","params":{"position":{"character":0,"line":0},"textDocument":{"uri":"file:///q.graphql"}}}
job 37
-> {"id":38,"jsonrpc":"2.0","method":"textDocument/hover","params":{"position":{"character":0,"line":0},"textDocument":{"uri":"file:///q.graphql"}}}
job 38
-> {"id":39,"jsonrpc":"2.0","method":"textDocument/hover","params":{"position":{"character":0,"line":0},"textDocument":{"uri":"file:///q.graphql"}}}
job 39
-> {"id":40,"jsonrpc":"2.0","method":"textDocument/hover","params":{"position":{"character":0,"line":0},"textDocument":{"uri":"file:///q.graphql"}}}
job 40
-> {"id":41,"jsonrpc":"2.0","method":"textDocument/hover","params":{"position":{"character":0,"line":0},"textDocument":{"uri":"file:///q.graphql"}}}
job 41
-> {"id":42,"jsonrpc":"2.0","method":"textDocument/hover","params":{"position":{"character":0,"line":0},"textDocument":{"uri":"file:///q.graphql"}}}
job 42
-> {"id":43,"jsonrpc":"2.0","method":"textDocument/hover","params":{"position":{"character":0,"line":0},"textDocument":{"uri":"file:///q.graphql"}}}
job 43
-> {"id":44,"jsonrpc":"2.0","method":"textDocument/hover","params":{"position":{"character":0,"line":0},"textDocument":{"uri":"file:///q.graphql"}}}
job 44
-> {"id":45,"jsonrpc":"2.0","method":"textDocument/hover","params":{"position":{"character":0,"line":0},"textDocument":{"uri":"file:///q.graphql"}}}
job 45
-> {"id":46,"jsonrpc":"2.0","method":"textDocument/hover","params":{"position":{"character":0,"line":0},"textDocument":{"uri":"file:///q.graphql"}}}
job 46
-> {"id":47,"jsonrpc":"2.0","method":"textDocument/hover","params":{"position":{"character":0,"line":0},"textDocument":{"uri":"file:///q.graphql"}}}
job 47
-> {"id":48,"jsonrpc":"2.0","method":"textDocument/hover","params":{"position":{"character":0,"line":0},"textDocument":{"uri":"file:///q.graphql"}}}
job 48
-> {"id":49,"jsonrpc":"2.0","method":"textDocument/hover","params":{"position":{"character":0,"line":0},"textDocument":{"uri":"file:///q.graphql"}}}
job 49
-> {"id":50,"jsonrpc":"2.0","method":"textDocument/hover","params":{"position":{"character":0,"line":0},"textDocument":{"uri":"file:///q.graphql"}}}
job 50
-> {"id":51,"jsonrpc":"2.0","method":"textDocument/hover","params":{"position":{"character":0,"line":0},"textDocument":{"uri":"file:///q.graphql"}}}
job 51
-> {"id":52,"jsonrpc":"2.0","method":"textDocument/hover","params":{"position":{"character":0,"line":0},"textDocument":{"uri":"file:///q.graphql"}}}
job 52
-> {"id":53,"jsonrpc":"2.0","method":"textDocument/hover","params":{"position":{"character":0,"line":0},"textDocument":{"uri":"file:///q.graphql"}}}
job 53
-> {"id":54,"jsonrpc":"2.0","method":"textDocument/hover","params":{"position":{"character":0,"line":0},"textDocument":{"uri":"file:///q.graphql"}}}
job 54
-> {"id":55,"jsonrpc":"2.0","method":"textDocument/hover","params":{"position":{"character":0,"line":0},"textDocument":{"uri":"file:///q.graphql"}}}
job 55
-> {"id":56,"jsonrpc":"2.0","method":"textDocument/hover","params":{"position":{"character":0,"line":0},"textDocument":{"uri":"file:///q.graphql"}}}
job 56
-> {"id":57,"jsonrpc":"2.0","method":"textDocument/hover","params":{"position":{"character":0,"line":0},"textDocument":{"uri":"file:///q.graphql"}}}
job 57
-> {"id":58,"jsonrpc":"2.0","method":"textDocument/hover","params":{"position":{"character":0,"line":0},"textDocument":{"uri":"file:///q.graphql"}}}
job 58
-> {"id":59,"jsonrpc":"2.0","method":"textDocument/hover","params":{"position":{"character":0,"line":0},"textDocument":{"uri":"file:///q.graphql"}}}
job 59
-> {"id":60,"jsonrpc":"2.0","method":"textDocument/hover","params":{"position":{"character":0,"line":0},"textDocument":{"uri":"file:///q.graphql"}}}
job 60
-> {"id":61,"jsonrpc":"2.0","method":"textDocument/hover","params":{"position":{"character":0,"line":0},"textDocument":{"uri":"file:///q.graphql"}}}
job 61
-> {"id":62,"jsonrpc":"2.0","method":"textDocument/hover","params":{"position":{"character":0,"line":0},"textDocument":{"uri":"file:///q.graphql"}}}
job 62
-> {"id":63,"jsonrpc":"2.0","method":"textDocument/hover","params":{"position":{"character":0,"line":0},"textDocument":{"uri":"file:///q.graphql"}}}
job 63
-> {"id":64,"jsonrpc":"2.0","method":"textDocument/hover","params":{"position":{"character":0,"line":0},"textDocument":{"uri":"file:///q.graphql"}}}
job 64
-> {"id":65,"jsonrpc":"2.0","method":"textDocument/hover","params":{"position":{"character":0,"line":0},"textDocument":{"uri":"file:///q.graphql"}}}
<- {"error":{"code":-32803,"message":"too many pending"},"id":65,"jsonrpc":"2.0"}
-> {"jsonrpc":"2.0","method":"textDocument/didChange","params":{"contentChanges":[{"text":"type Query{x:Int y:Int}"}],"textDocument":{"uri":"file:///s.graphql","version":2}}}
<- {"error":{"code":-32801,"message":"content modified"},"id":1,"jsonrpc":"2.0"}
<- {"error":{"code":-32801,"message":"content modified"},"id":2,"jsonrpc":"2.0"}
<- {"error":{"code":-32801,"message":"content modified"},"id":3,"jsonrpc":"2.0"}
<- {"error":{"code":-32801,"message":"content modified"},"id":4,"jsonrpc":"2.0"}
<- {"error":{"code":-32801,"message":"content modified"},"id":5,"jsonrpc":"2.0"}
<- {"error":{"code":-32801,"message":"content modified"},"id":6,"jsonrpc":"2.0"}
<- {"error":{"code":-32801,"message":"content modified"},"id":7,"jsonrpc":"2.0"}
<- {"error":{"code":-32801,"message":"content modified"},"id":8,"jsonrpc":"2.0"}
<- {"error":{"code":-32801,"message":"content modified"},"id":9,"jsonrpc":"2.0"}
<- {"error":{"code":-32801,"message":"content modified"},"id":10,"jsonrpc":"2.0"}
<- {"error":{"code":-32801,"message":"content modified"},"id":11,"jsonrpc":"2.0"}
<- {"error":{"code":-32801,"message":"content modified"},"id":12,"jsonrpc":"2.0"}
<- {"error":{"code":-32801,"message":"content modified"},"id":13,"jsonrpc":"2.0"}
<- {"error":{"code":-32801,"message":"content modified"},"id":14,"jsonrpc":"2.0"}
<- {"error":{"code":-32801,"message":"content modified"},"id":15,"jsonrpc":"2.0"}
<- {"error":{"code":-32801,"message":"content modified"},"id":16,"jsonrpc":"2.0"}
<- {"error":{"code":-32801,"message":"content modified"},"id":17,"jsonrpc":"2.0"}
<- {"error":{"code":-32801,"message":"content modified"},"id":18,"jsonrpc":"2.0"}
<- {"error":{"code":-32801,"message":"content modified"},"id":19,"jsonrpc":"2.0"}
<- {"error":{"code":-32801,"message":"content modified"},"id":20,"jsonrpc":"2.0"}
<- {"error":{"code":-32801,"message":"content modified"},"id":21,"jsonrpc":"2.0"}
<- {"error":{"code":-32801,"message":"content modified"},"id":22,"jsonrpc":"2.0"}
<- {"error":{"code":-32801,"message":"content modified"},"id":23,"jsonrpc":"2.0"}
<- {"error":{"code":-32801,"message":"content modified"},"id":24,"jsonrpc":"2.0"}
<- {"error":{"code":-32801,"message":"content modified"},"id":25,"jsonrpc":"2.0"}
<- {"error":{"code":-32801,"message":"content modified"},"id":26,"jsonrpc":"2.0"}
<- {"error":{"code":-32801,"message":"content modified"},"id":27,"jsonrpc":"2.0"}
<- {"error":{"code":-32801,"message":"content modified"},"id":28,"jsonrpc":"2.0"}
<- {"error":{"code":-32801,"message":"content modified"},"id":29,"jsonrpc":"2.0"}
<- {"error":{"code":-32801,"message":"content modified"},"id":30,"jsonrpc":"2.0"}
<- {"error":{"code":-32801,"message":"content modified"},"id":31,"jsonrpc":"2.0"}
<- {"error":{"code":-32801,"message":"content modified"},"id":32,"jsonrpc":"2.0"}
<- {"error":{"code":-32801,"message":"content modified"},"id":33,"jsonrpc":"2.0"}
<- {"error":{"code":-32801,"message":"content modified"},"id":34,"jsonrpc":"2.0"}
<- {"error":{"code":-32801,"message":"content modified"},"id":35,"jsonrpc":"2.0"}
<- {"error":{"code":-32801,"message":"content modified"},"id":36,"jsonrpc":"2.0"}
<- {"error":{"code":-32801,"message":"content modified"},"id":37,"jsonrpc":"2.0"}
<- {"error":{"code":-32801,"message":"content modified"},"id":38,"jsonrpc":"2.0"}
<- {"error":{"code":-32801,"message":"content modified"},"id":39,"jsonrpc":"2.0"}
<- {"error":{"code":-32801,"message":"content modified"},"id":40,"jsonrpc":"2.0"}
<- {"error":{"code":-32801,"message":"content modified"},"id":41,"jsonrpc":"2.0"}
<- {"error":{"code":-32801,"message":"content modified"},"id":42,"jsonrpc":"2.0"}
<- {"error":{"code":-32801,"message":"content modified"},"id":43,"jsonrpc":"2.0"}
<- {"error":{"code":-32801,"message":"content modified"},"id":44,"jsonrpc":"2.0"}
<- {"error":{"code":-32801,"message":"content modified"},"id":45,"jsonrpc":"2.0"}
<- {"error":{"code":-32801,"message":"content modified"},"id":46,"jsonrpc":"2.0"}
<- {"error":{"code":-32801,"message":"content modified"},"id":47,"jsonrpc":"2.0"}
<- {"error":{"code":-32801,"message":"content modified"},"id":48,"jsonrpc":"2.0"}
<- {"error":{"code":-32801,"message":"content modified"},"id":49,"jsonrpc":"2.0"}
<- {"error":{"code":-32801,"message":"content modified"},"id":50,"jsonrpc":"2.0"}
<- {"error":{"code":-32801,"message":"content modified"},"id":51,"jsonrpc":"2.0"}
<- {"error":{"code":-32801,"message":"content modified"},"id":52,"jsonrpc":"2.0"}
<- {"error":{"code":-32801,"message":"content modified"},"id":53,"jsonrpc":"2.0"}
<- {"error":{"code":-32801,"message":"content modified"},"id":54,"jsonrpc":"2.0"}
<- {"error":{"code":-32801,"message":"content modified"},"id":55,"jsonrpc":"2.0"}
<- {"error":{"code":-32801,"message":"content modified"},"id":56,"jsonrpc":"2.0"}
<- {"error":{"code":-32801,"message":"content modified"},"id":57,"jsonrpc":"2.0"}
<- {"error":{"code":-32801,"message":"content modified"},"id":58,"jsonrpc":"2.0"}
<- {"error":{"code":-32801,"message":"content modified"},"id":59,"jsonrpc":"2.0"}
<- {"error":{"code":-32801,"message":"content modified"},"id":60,"jsonrpc":"2.0"}
<- {"error":{"code":-32801,"message":"content modified"},"id":61,"jsonrpc":"2.0"}
<- {"error":{"code":-32801,"message":"content modified"},"id":62,"jsonrpc":"2.0"}
<- {"error":{"code":-32801,"message":"content modified"},"id":63,"jsonrpc":"2.0"}
<- {"error":{"code":-32801,"message":"content modified"},"id":64,"jsonrpc":"2.0"}
put file:///s.graphql 2
-> {"id":66,"jsonrpc":"2.0","method":"textDocument/hover","params":{"position":{"character":0,"line":0},"textDocument":{"uri":"file:///q.graphql"}}}
done 1 of 1 seeing 1
job 65
done 1 of 1 seeing 1

# An id that is pending is refused, and what is pending stays so.
workers 2
-> {"id":0,"jsonrpc":"2.0","method":"initialize","params":{"capabilities":{"workspace":{"workspaceEdit":{"documentChanges":true}}},"processId":null,"rootUri":null}}
<- {"id":0,"jsonrpc":"2.0","result":{"capabilities":{"renameProvider":true,"textDocumentSync":{"change":2,"openClose":true}},"serverInfo":{"name":"gqls"}}}
-> {"jsonrpc":"2.0","method":"textDocument/didOpen","params":{"textDocument":{"languageId":"graphql","text":"type Query{x:Int}","uri":"file:///s.graphql","version":1}}}
put file:///s.graphql 1
-> {"jsonrpc":"2.0","method":"textDocument/didOpen","params":{"textDocument":{"languageId":"graphql","text":"query Q{...A} fragment A on Query{x}","uri":"file:///q.graphql","version":1}}}
put file:///q.graphql 1
-> {"id":1,"jsonrpc":"2.0","method":"textDocument/hover","params":{"position":{"character":0,"line":0},"textDocument":{"uri":"file:///q.graphql"}}}
job 1
-> {"id":1,"jsonrpc":"2.0","method":"textDocument/hover","params":{"position":{"character":0,"line":0},"textDocument":{"uri":"file:///q.graphql"}}}
<- {"error":{"code":-32600,"message":"invalid request"},"id":1,"jsonrpc":"2.0"}
done 1 of 1 seeing now
<- {"id":1,"jsonrpc":"2.0","result":null}

# A shutdown is told to 64 renames in order.
workers 2
-> {"id":0,"jsonrpc":"2.0","method":"initialize","params":{"capabilities":{"workspace":{"workspaceEdit":{"documentChanges":true}}},"processId":null,"rootUri":null}}
<- {"id":0,"jsonrpc":"2.0","result":{"capabilities":{"renameProvider":true,"textDocumentSync":{"change":2,"openClose":true}},"serverInfo":{"name":"gqls"}}}
-> {"jsonrpc":"2.0","method":"textDocument/didOpen","params":{"textDocument":{"languageId":"graphql","text":"type Query{x:Int}","uri":"file:///s.graphql","version":1}}}
put file:///s.graphql 1
-> {"jsonrpc":"2.0","method":"textDocument/didOpen","params":{"textDocument":{"languageId":"graphql","text":"query Q{...A} fragment A on Query{x}","uri":"file:///q.graphql","version":1}}}
put file:///q.graphql 1
-> {"id":1,"jsonrpc":"2.0","method":"textDocument/rename","params":{"newName":"B","position":{"character":11,"line":0},"textDocument":{"uri":"file:///q.graphql"}}}
job 1
-> {"id":2,"jsonrpc":"2.0","method":"textDocument/rename","params":{"newName":"B","position":{"character":11,"line":0},"textDocument":{"uri":"file:///q.graphql"}}}
job 2
-> {"id":3,"jsonrpc":"2.0","method":"textDocument/rename","params":{"newName":"B","position":{"character":11,"line":0},"textDocument":{"uri":"file:///q.graphql"}}}
job 3
-> {"id":4,"jsonrpc":"2.0","method":"textDocument/rename","params":{"newName":"B","position":{"character":11,"line":0},"textDocument":{"uri":"file:///q.graphql"}}}
job 4
-> {"id":5,"jsonrpc":"2.0","method":"textDocument/rename","params":{"newName":"B","position":{"character":11,"line":0},"textDocument":{"uri":"file:///q.graphql"}}}
job 5
-> {"id":6,"jsonrpc":"2.0","method":"textDocument/rename","params":{"newName":"B","position":{"character":11,"line":0},"textDocument":{"uri":"file:///q.graphql"}}}
job 6
-> {"id":7,"jsonrpc":"2.0","method":"textDocument/rename","params":{"newName":"B","position":{"character":11,"line":0},"textDocument":{"uri":"file:///q.graphql"}}}
job 7
-> {"id":8,"jsonrpc":"2.0","method":"textDocument/rename","params":{"newName":"B","position":{"character":11,"line":0},"textDocument":{"uri":"file:///q.graphql"}}}
job 8
-> {"id":9,"jsonrpc":"2.0","method":"textDocument/rename","params":{"newName":"B","position":{"character":11,"line":0},"textDocument":{"uri":"file:///q.graphql"}}}
job 9
-> {"id":10,"jsonrpc":"2.0","method":"textDocument/rename","params":{"newName":"B","position":{"character":11,"line":0},"textDocument":{"uri":"file:///q.graphql"}}}
job 10
-> {"id":11,"jsonrpc":"2.0","method":"textDocument/rename","params":{"newName":"B","position":{"character":11,"line":0},"textDocument":{"uri":"file:///q.graphql"}}}
job 11
-> {"id":12,"jsonrpc":"2.0","method":"textDocument/rename","params":{"newName":"B","position":{"character":11,"line":0},"textDocument":{"uri":"file:///q.graphql"}}}
job 12
-> {"id":13,"jsonrpc":"2.0","method":"textDocument/rename","params":{"newName":"B","position":{"character":11,"line":0},"textDocument":{"uri":"file:///q.graphql"}}}
job 13
-> {"id":14,"jsonrpc":"2.0","method":"textDocument/rename","params":{"newName":"B","position":{"character":11,"line":0},"textDocument":{"uri":"file:///q.graphql"}}}
job 14
-> {"id":15,"jsonrpc":"2.0","method":"textDocument/rename","params":{"newName":"B","position":{"character":11,"line":0},"textDocument":{"uri":"file:///q.graphql"}}}
job 15
-> {"id":16,"jsonrpc":"2.0","method":"textDocument/rename","params":{"newName":"B","position":{"character":11,"line":0},"textDocument":{"uri":"file:///q.graphql"}}}
job 16
-> {"id":17,"jsonrpc":"2.0","method":"textDocument/rename","params":{"newName":"B","position":{"character":11,"line":0},"textDocument":{"uri":"file:///q.graphql"}}}
job 17
-> {"id":18,"jsonrpc":"2.0","method":"textDocument/rename","params":{"newName":"B","position":{"character":11,"line":0},"textDocument":{"uri":"file:///q.graphql"}}}
job 18
-> {"id":19,"jsonrpc":"2.0","method":"textDocument/rename","params":{"newName":"B","position":{"character":11,"line":0},"textDocument":{"uri":"file:///q.graphql"}}}
job 19
-> {"id":20,"jsonrpc":"2.0","method":"textDocument/rename","params":{"newName":"B","position":{"character":11,"line":0},"textDocument":{"uri":"file:///q.graphql"}}}
job 20
-> {"id":21,"jsonrpc":"2.0","method":"textDocument/rename","params":{"newName":"B","position":{"character":11,"line":0},"textDocument":{"uri":"file:///q.graphql"}}}
job 21
-> {"id":22,"jsonrpc":"2.0","method":"textDocument/rename","params":{"newName":"B","position":{"character":11,"line":0},"textDocument":{"uri":"file:///q.graphql"}}}
job 22
-> {"id":23,"jsonrpc":"2.0","method":"textDocument/rename","params":{"newName":"B","position":{"character":11,"line":0},"textDocument":{"uri":"file:///q.graphql"}}}
job 23
-> {"id":24,"jsonrpc":"2.0","method":"textDocument/rename","params":{"newName":"B","position":{"character":11,"line":0},"textDocument":{"uri":"file:///q.graphql"}}}
job 24
-> {"id":25,"jsonrpc":"2.0","method":"textDocument/rename","params":{"newName":"B","position":{"character":11,"line":0},"textDocument":{"uri":"file:///q.graphql"}}}
job 25
-> {"id":26,"jsonrpc":"2.0","method":"textDocument/rename","params":{"newName":"B","position":{"character":11,"line":0},"textDocument":{"uri":"file:///q.graphql"}}}
job 26
-> {"id":27,"jsonrpc":"2.0","method":"textDocument/rename","params":{"newName":"B","position":{"character":11,"line":0},"textDocument":{"uri":"file:///q.graphql"}}}
job 27
-> {"id":28,"jsonrpc":"2.0","method":"textDocument/rename","params":{"newName":"B","position":{"character":11,"line":0},"textDocument":{"uri":"file:///q.graphql"}}}
job 28
-> {"id":29,"jsonrpc":"2.0","method":"textDocument/rename","params":{"newName":"B","position":{"character":11,"line":0},"textDocument":{"uri":"file:///q.graphql"}}}
job 29
-> {"id":30,"jsonrpc":"2.0","method":"textDocument/rename","params":{"newName":"B","position":{"character":11,"line":0},"textDocument":{"uri":"file:///q.graphql"}}}
job 30
-> {"id":31,"jsonrpc":"2.0","method":"textDocument/rename","params":{"newName":"B","position":{"character":11,"line":0},"textDocument":{"uri":"file:///q.graphql"}}}
job 31
-> {"id":32,"jsonrpc":"2.0","method":"textDocument/rename","params":{"newName":"B","position":{"character":11,"line":0},"textDocument":{"uri":"file:///q.graphql"}}}
job 32
-> {"id":33,"jsonrpc":"2.0","method":"textDocument/rename","params":{"newName":"B","position":{"character":11,"line":0},"textDocument":{"uri":"file:///q.graphql"}}}
job 33
-> {"id":34,"jsonrpc":"2.0","method":"textDocument/rename","params":{"newName":"B","position":{"character":11,"line":0},"textDocument":{"uri":"file:///q.graphql"}}}
job 34
-> {"id":35,"jsonrpc":"2.0","method":"textDocument/rename","params":{"newName":"B","position":{"character":11,"line":0},"textDocument":{"uri":"file:///q.graphql"}}}
job 35
-> {"id":36,"jsonrpc":"2.0","method":"textDocument/rename","params":{"newName":"B","position":{"character":11,"line":0},"textDocument":{"uri":"file:///q.graphql"}}}
job 36
-> {"id":37,"jsonrpc":"2.0","method":"textDocument/rename","params":{"newName":"B","position":{"character":11,"line":0},"textDocument":{"uri":"file:///q.graphql"}}}
job 37
-> {"id":38,"jsonrpc":"2.0","method":"textDocument/rename","params":{"newName":"B","position":{"character":11,"line":0},"textDocument":{"uri":"file:///q.graphql"}}}
job 38
-> {"id":39,"jsonrpc":"2.0","method":"textDocument/rename","params":{"newName":"B","position":{"character":11,"line":0},"textDocument":{"uri":"file:///q.graphql"}}}
job 39
-> {"id":40,"jsonrpc":"2.0","method":"textDocument/rename","params":{"newName":"B","position":{"character":11,"line":0},"textDocument":{"uri":"file:///q.graphql"}}}
job 40
-> {"id":41,"jsonrpc":"2.0","method":"textDocument/rename","params":{"newName":"B","position":{"character":11,"line":0},"textDocument":{"uri":"file:///q.graphql"}}}
job 41
-> {"id":42,"jsonrpc":"2.0","method":"textDocument/rename","params":{"newName":"B","position":{"character":11,"line":0},"textDocument":{"uri":"file:///q.graphql"}}}
job 42
-> {"id":43,"jsonrpc":"2.0","method":"textDocument/rename","params":{"newName":"B","position":{"character":11,"line":0},"textDocument":{"uri":"file:///q.graphql"}}}
job 43
-> {"id":44,"jsonrpc":"2.0","method":"textDocument/rename","params":{"newName":"B","position":{"character":11,"line":0},"textDocument":{"uri":"file:///q.graphql"}}}
job 44
-> {"id":45,"jsonrpc":"2.0","method":"textDocument/rename","params":{"newName":"B","position":{"character":11,"line":0},"textDocument":{"uri":"file:///q.graphql"}}}
job 45
-> {"id":46,"jsonrpc":"2.0","method":"textDocument/rename","params":{"newName":"B","position":{"character":11,"line":0},"textDocument":{"uri":"file:///q.graphql"}}}
job 46
-> {"id":47,"jsonrpc":"2.0","method":"textDocument/rename","params":{"newName":"B","position":{"character":11,"line":0},"textDocument":{"uri":"file:///q.graphql"}}}
job 47
-> {"id":48,"jsonrpc":"2.0","method":"textDocument/rename","params":{"newName":"B","position":{"character":11,"line":0},"textDocument":{"uri":"file:///q.graphql"}}}
job 48
-> {"id":49,"jsonrpc":"2.0","method":"textDocument/rename","params":{"newName":"B","position":{"character":11,"line":0},"textDocument":{"uri":"file:///q.graphql"}}}
job 49
-> {"id":50,"jsonrpc":"2.0","method":"textDocument/rename","params":{"newName":"B","position":{"character":11,"line":0},"textDocument":{"uri":"file:///q.graphql"}}}
job 50
-> {"id":51,"jsonrpc":"2.0","method":"textDocument/rename","params":{"newName":"B","position":{"character":11,"line":0},"textDocument":{"uri":"file:///q.graphql"}}}
job 51
-> {"id":52,"jsonrpc":"2.0","method":"textDocument/rename","params":{"newName":"B","position":{"character":11,"line":0},"textDocument":{"uri":"file:///q.graphql"}}}
job 52
-> {"id":53,"jsonrpc":"2.0","method":"textDocument/rename","params":{"newName":"B","position":{"character":11,"line":0},"textDocument":{"uri":"file:///q.graphql"}}}
job 53
-> {"id":54,"jsonrpc":"2.0","method":"textDocument/rename","params":{"newName":"B","position":{"character":11,"line":0},"textDocument":{"uri":"file:///q.graphql"}}}
job 54
-> {"id":55,"jsonrpc":"2.0","method":"textDocument/rename","params":{"newName":"B","position":{"character":11,"line":0},"textDocument":{"uri":"file:///q.graphql"}}}
job 55
-> {"id":56,"jsonrpc":"2.0","method":"textDocument/rename","params":{"newName":"B","position":{"character":11,"line":0},"textDocument":{"uri":"file:///q.graphql"}}}
job 56
-> {"id":57,"jsonrpc":"2.0","method":"textDocument/rename","params":{"newName":"B","position":{"character":11,"line":0},"textDocument":{"uri":"file:///q.graphql"}}}
job 57
-> {"id":58,"jsonrpc":"2.0","method":"textDocument/rename","params":{"newName":"B","position":{"character":11,"line":0},"textDocument":{"uri":"file:///q.graphql"}}}
job 58
-> {"id":59,"jsonrpc":"2.0","method":"textDocument/rename","params":{"newName":"B","position":{"character":11,"line":0},"textDocument":{"uri":"file:///q.graphql"}}}
job 59
-> {"id":60,"jsonrpc":"2.0","method":"textDocument/rename","params":{"newName":"B","position":{"character":11,"line":0},"textDocument":{"uri":"file:///q.graphql"}}}
job 60
-> {"id":61,"jsonrpc":"2.0","method":"textDocument/rename","params":{"newName":"B","position":{"character":11,"line":0},"textDocument":{"uri":"file:///q.graphql"}}}
job 61
-> {"id":62,"jsonrpc":"2.0","method":"textDocument/rename","params":{"newName":"B","position":{"character":11,"line":0},"textDocument":{"uri":"file:///q.graphql"}}}
job 62
-> {"id":63,"jsonrpc":"2.0","method":"textDocument/rename","params":{"newName":"B","position":{"character":11,"line":0},"textDocument":{"uri":"file:///q.graphql"}}}
job 63
-> {"id":64,"jsonrpc":"2.0","method":"textDocument/rename","params":{"newName":"B","position":{"character":11,"line":0},"textDocument":{"uri":"file:///q.graphql"}}}
job 64
-> {"id":65,"jsonrpc":"2.0","method":"shutdown"}
<- {"error":{"code":-32803,"message":"shutdown"},"id":1,"jsonrpc":"2.0"}
<- {"error":{"code":-32803,"message":"shutdown"},"id":2,"jsonrpc":"2.0"}
<- {"error":{"code":-32803,"message":"shutdown"},"id":3,"jsonrpc":"2.0"}
<- {"error":{"code":-32803,"message":"shutdown"},"id":4,"jsonrpc":"2.0"}
<- {"error":{"code":-32803,"message":"shutdown"},"id":5,"jsonrpc":"2.0"}
<- {"error":{"code":-32803,"message":"shutdown"},"id":6,"jsonrpc":"2.0"}
<- {"error":{"code":-32803,"message":"shutdown"},"id":7,"jsonrpc":"2.0"}
<- {"error":{"code":-32803,"message":"shutdown"},"id":8,"jsonrpc":"2.0"}
<- {"error":{"code":-32803,"message":"shutdown"},"id":9,"jsonrpc":"2.0"}
<- {"error":{"code":-32803,"message":"shutdown"},"id":10,"jsonrpc":"2.0"}
<- {"error":{"code":-32803,"message":"shutdown"},"id":11,"jsonrpc":"2.0"}
<- {"error":{"code":-32803,"message":"shutdown"},"id":12,"jsonrpc":"2.0"}
<- {"error":{"code":-32803,"message":"shutdown"},"id":13,"jsonrpc":"2.0"}
<- {"error":{"code":-32803,"message":"shutdown"},"id":14,"jsonrpc":"2.0"}
<- {"error":{"code":-32803,"message":"shutdown"},"id":15,"jsonrpc":"2.0"}
<- {"error":{"code":-32803,"message":"shutdown"},"id":16,"jsonrpc":"2.0"}
<- {"error":{"code":-32803,"message":"shutdown"},"id":17,"jsonrpc":"2.0"}
<- {"error":{"code":-32803,"message":"shutdown"},"id":18,"jsonrpc":"2.0"}
<- {"error":{"code":-32803,"message":"shutdown"},"id":19,"jsonrpc":"2.0"}
<- {"error":{"code":-32803,"message":"shutdown"},"id":20,"jsonrpc":"2.0"}
<- {"error":{"code":-32803,"message":"shutdown"},"id":21,"jsonrpc":"2.0"}
<- {"error":{"code":-32803,"message":"shutdown"},"id":22,"jsonrpc":"2.0"}
<- {"error":{"code":-32803,"message":"shutdown"},"id":23,"jsonrpc":"2.0"}
<- {"error":{"code":-32803,"message":"shutdown"},"id":24,"jsonrpc":"2.0"}
<- {"error":{"code":-32803,"message":"shutdown"},"id":25,"jsonrpc":"2.0"}
<- {"error":{"code":-32803,"message":"shutdown"},"id":26,"jsonrpc":"2.0"}
<- {"error":{"code":-32803,"message":"shutdown"},"id":27,"jsonrpc":"2.0"}
<- {"error":{"code":-32803,"message":"shutdown"},"id":28,"jsonrpc":"2.0"}
<- {"error":{"code":-32803,"message":"shutdown"},"id":29,"jsonrpc":"2.0"}
<- {"error":{"code":-32803,"message":"shutdown"},"id":30,"jsonrpc":"2.0"}
<- {"error":{"code":-32803,"message":"shutdown"},"id":31,"jsonrpc":"2.0"}
<- {"error":{"code":-32803,"message":"shutdown"},"id":32,"jsonrpc":"2.0"}
<- {"error":{"code":-32803,"message":"shutdown"},"id":33,"jsonrpc":"2.0"}
<- {"error":{"code":-32803,"message":"shutdown"},"id":34,"jsonrpc":"2.0"}
<- {"error":{"code":-32803,"message":"shutdown"},"id":35,"jsonrpc":"2.0"}
<- {"error":{"code":-32803,"message":"shutdown"},"id":36,"jsonrpc":"2.0"}
<- {"error":{"code":-32803,"message":"shutdown"},"id":37,"jsonrpc":"2.0"}
<- {"error":{"code":-32803,"message":"shutdown"},"id":38,"jsonrpc":"2.0"}
<- {"error":{"code":-32803,"message":"shutdown"},"id":39,"jsonrpc":"2.0"}
<- {"error":{"code":-32803,"message":"shutdown"},"id":40,"jsonrpc":"2.0"}
<- {"error":{"code":-32803,"message":"shutdown"},"id":41,"jsonrpc":"2.0"}
<- {"error":{"code":-32803,"message":"shutdown"},"id":42,"jsonrpc":"2.0"}
<- {"error":{"code":-32803,"message":"shutdown"},"id":43,"jsonrpc":"2.0"}
<- {"error":{"code":-32803,"message":"shutdown"},"id":44,"jsonrpc":"2.0"}
<- {"error":{"code":-32803,"message":"shutdown"},"id":45,"jsonrpc":"2.0"}
<- {"error":{"code":-32803,"message":"shutdown"},"id":46,"jsonrpc":"2.0"}
<- {"error":{"code":-32803,"message":"shutdown"},"id":47,"jsonrpc":"2.0"}
<- {"error":{"code":-32803,"message":"shutdown"},"id":48,"jsonrpc":"2.0"}
<- {"error":{"code":-32803,"message":"shutdown"},"id":49,"jsonrpc":"2.0"}
<- {"error":{"code":-32803,"message":"shutdown"},"id":50,"jsonrpc":"2.0"}
<- {"error":{"code":-32803,"message":"shutdown"},"id":51,"jsonrpc":"2.0"}
<- {"error":{"code":-32803,"message":"shutdown"},"id":52,"jsonrpc":"2.0"}
<- {"error":{"code":-32803,"message":"shutdown"},"id":53,"jsonrpc":"2.0"}
<- {"error":{"code":-32803,"message":"shutdown"},"id":54,"jsonrpc":"2.0"}
<- {"error":{"code":-32803,"message":"shutdown"},"id":55,"jsonrpc":"2.0"}
<- {"error":{"code":-32803,"message":"shutdown"},"id":56,"jsonrpc":"2.0"}
<- {"error":{"code":-32803,"message":"shutdown"},"id":57,"jsonrpc":"2.0"}
<- {"error":{"code":-32803,"message":"shutdown"},"id":58,"jsonrpc":"2.0"}
<- {"error":{"code":-32803,"message":"shutdown"},"id":59,"jsonrpc":"2.0"}
<- {"error":{"code":-32803,"message":"shutdown"},"id":60,"jsonrpc":"2.0"}
<- {"error":{"code":-32803,"message":"shutdown"},"id":61,"jsonrpc":"2.0"}
<- {"error":{"code":-32803,"message":"shutdown"},"id":62,"jsonrpc":"2.0"}
<- {"error":{"code":-32803,"message":"shutdown"},"id":63,"jsonrpc":"2.0"}
<- {"error":{"code":-32803,"message":"shutdown"},"id":64,"jsonrpc":"2.0"}
<- {"id":65,"jsonrpc":"2.0","result":null}
done 1 of 1 seeing now
done 2 of 2 seeing now
done 64 of 64 seeing now

# Of another task, of documents with another version or with none, and of a job that was never made a result decides nothing. The request is answered by
# its own, and its id is free again.
workers 2
-> {"id":0,"jsonrpc":"2.0","method":"initialize","params":{"capabilities":{"workspace":{"workspaceEdit":{"documentChanges":true}}},"processId":null,"rootUri":null}}
<- {"id":0,"jsonrpc":"2.0","result":{"capabilities":{"renameProvider":true,"textDocumentSync":{"change":2,"openClose":true}},"serverInfo":{"name":"gqls"}}}
-> {"jsonrpc":"2.0","method":"textDocument/didOpen","params":{"textDocument":{"languageId":"graphql","text":"type Query{x:Int}","uri":"file:///s.graphql","version":1}}}
put file:///s.graphql 1
-> {"jsonrpc":"2.0","method":"textDocument/didOpen","params":{"textDocument":{"languageId":"graphql","text":"query Q{...A} fragment A on Query{x}","uri":"file:///q.graphql","version":1}}}
put file:///q.graphql 1
-> {"id":1,"jsonrpc":"2.0","method":"textDocument/rename","params":{"newName":"B","position":{"character":11,"line":0},"textDocument":{"uri":"file:///q.graphql"}}}
job 1
done 1 of {"id":2,"jsonrpc":"2.0","method":"textDocument/rename","params":{"newName":"B","position":{"character":11,"line":0},"textDocument":{"uri":"file:///q.graphql"}}} seeing now
done 1 of {"id":1,"jsonrpc":"2.0","method":"textDocument/rename","params":{"newName":"C","position":{"character":11,"line":0},"textDocument":{"uri":"file:///q.graphql"}}} seeing now
done 1 of 1 seeing now with file:///s.graphql 2 type Query{x:Int}
done 1 of 1 seeing now with file:///s.graphql null type Query{x:Int}
done 9 of 1 seeing now
done 1 of 1 seeing now
<- {"id":1,"jsonrpc":"2.0","result":{"documentChanges":[{"edits":[{"newText":"B","range":{"end":{"character":12,"line":0},"start":{"character":11,"line":0}}},{"newText":"B","range":{"end":{"character":24,"line":0},"start":{"character":23,"line":0}}}],"textDocument":{"uri":"file:///q.graphql","version":1}}]}}
-> {"jsonrpc":"2.0","method":"$/cancelRequest","params":{"id":1}}
-> {"id":1,"jsonrpc":"2.0","method":"textDocument/rename","params":{"newName":"B","position":{"character":11,"line":0},"textDocument":{"uri":"file:///q.graphql"}}}
job 2

# A change that cannot be read leaves its document lost: it is empty at its new version, and nothing is answered until it is opened again.
workers 2
-> {"id":0,"jsonrpc":"2.0","method":"initialize","params":{"capabilities":{"workspace":{"workspaceEdit":{"documentChanges":true}}},"processId":null,"rootUri":null}}
<- {"id":0,"jsonrpc":"2.0","result":{"capabilities":{"renameProvider":true,"textDocumentSync":{"change":2,"openClose":true}},"serverInfo":{"name":"gqls"}}}
-> {"jsonrpc":"2.0","method":"textDocument/didOpen","params":{"textDocument":{"languageId":"graphql","text":"type Query{x:Int}","uri":"file:///s.graphql","version":1}}}
put file:///s.graphql 1
-> {"jsonrpc":"2.0","method":"textDocument/didOpen","params":{"textDocument":{"languageId":"graphql","text":"query Q{...A} fragment A on Query{x}","uri":"file:///q.graphql","version":1}}}
put file:///q.graphql 1
-> {"id":1,"jsonrpc":"2.0","method":"textDocument/rename","params":{"newName":"B","position":{"character":11,"line":0},"textDocument":{"uri":"file:///q.graphql"}}}
job 1
-> {"id":2,"jsonrpc":"2.0","method":"textDocument/hover","params":{"position":{"character":0,"line":0},"textDocument":{"uri":"file:///q.graphql"}}}
job 2
-> {"jsonrpc":"2.0","method":"textDocument/didChange","params":{"contentChanges":5,"textDocument":{"uri":"file:///q.graphql","version":2}}}
<- {"error":{"code":-32801,"message":"content modified"},"id":1,"jsonrpc":"2.0"}
<- {"error":{"code":-32801,"message":"content modified"},"id":2,"jsonrpc":"2.0"}
put file:///q.graphql 2
-> {"id":3,"jsonrpc":"2.0","method":"textDocument/rename","params":{"newName":"B","position":{"character":11,"line":0},"textDocument":{"uri":"file:///q.graphql"}}}
<- {"error":{"code":-32803,"message":"document lost"},"id":3,"jsonrpc":"2.0"}
-> {"id":4,"jsonrpc":"2.0","method":"textDocument/hover","params":{"position":{"character":0,"line":0},"textDocument":{"uri":"file:///s.graphql"}}}
<- {"error":{"code":-32803,"message":"document lost"},"id":4,"jsonrpc":"2.0"}
-> {"jsonrpc":"2.0","method":"textDocument/didOpen","params":{"textDocument":{"languageId":"graphql","text":"query Q{...A} fragment A on Query{x}","uri":"file:///q.graphql","version":1}}}
put file:///q.graphql 1
-> {"id":5,"jsonrpc":"2.0","method":"textDocument/rename","params":{"newName":"B","position":{"character":11,"line":0},"textDocument":{"uri":"file:///q.graphql"}}}
job 3

# A change to the same text at the same version is a change.
workers 2
-> {"id":0,"jsonrpc":"2.0","method":"initialize","params":{"capabilities":{"workspace":{"workspaceEdit":{"documentChanges":true}}},"processId":null,"rootUri":null}}
<- {"id":0,"jsonrpc":"2.0","result":{"capabilities":{"renameProvider":true,"textDocumentSync":{"change":2,"openClose":true}},"serverInfo":{"name":"gqls"}}}
-> {"jsonrpc":"2.0","method":"textDocument/didOpen","params":{"textDocument":{"languageId":"graphql","text":"type Query{x:Int}","uri":"file:///s.graphql","version":1}}}
put file:///s.graphql 1
-> {"jsonrpc":"2.0","method":"textDocument/didOpen","params":{"textDocument":{"languageId":"graphql","text":"query Q{...A} fragment A on Query{x}","uri":"file:///q.graphql","version":1}}}
put file:///q.graphql 1
-> {"id":1,"jsonrpc":"2.0","method":"textDocument/rename","params":{"newName":"B","position":{"character":11,"line":0},"textDocument":{"uri":"file:///q.graphql"}}}
job 1
-> {"jsonrpc":"2.0","method":"textDocument/didChange","params":{"contentChanges":[{"text":"type Query{x:Int}"}],"textDocument":{"uri":"file:///s.graphql","version":1}}}
<- {"error":{"code":-32801,"message":"content modified"},"id":1,"jsonrpc":"2.0"}
put file:///s.graphql 1
done 1 of 1 seeing now

# Documents differ where one is missing, or one text differs while its version is the same.
workers 2
-> {"id":0,"jsonrpc":"2.0","method":"initialize","params":{"capabilities":{"workspace":{"workspaceEdit":{"documentChanges":true}}},"processId":null,"rootUri":null}}
<- {"id":0,"jsonrpc":"2.0","result":{"capabilities":{"renameProvider":true,"textDocumentSync":{"change":2,"openClose":true}},"serverInfo":{"name":"gqls"}}}
-> {"jsonrpc":"2.0","method":"textDocument/didOpen","params":{"textDocument":{"languageId":"graphql","text":"type Query{x:Int}","uri":"file:///s.graphql","version":1}}}
put file:///s.graphql 1
-> {"jsonrpc":"2.0","method":"textDocument/didOpen","params":{"textDocument":{"languageId":"graphql","text":"query Q{...A} fragment A on Query{x}","uri":"file:///q.graphql","version":1}}}
put file:///q.graphql 1
-> {"id":1,"jsonrpc":"2.0","method":"textDocument/rename","params":{"newName":"B","position":{"character":11,"line":0},"textDocument":{"uri":"file:///q.graphql"}}}
job 1
-> {"jsonrpc":"2.0","method":"textDocument/didClose","params":{"textDocument":{"uri":"file:///s.graphql"}}}
<- {"error":{"code":-32801,"message":"content modified"},"id":1,"jsonrpc":"2.0"}
close file:///s.graphql
-> {"id":2,"jsonrpc":"2.0","method":"textDocument/rename","params":{"newName":"B","position":{"character":11,"line":0},"textDocument":{"uri":"file:///q.graphql"}}}
job 2
done 2 of 2 seeing 1
done 2 of 2 seeing now with file:///q.graphql 1 query Q{...A} fragment A on Query{y}
done 2 of 2 seeing now
<- {"error":{"code":-32803,"message":"1 ProjectInvalid"},"id":2,"jsonrpc":"2.0"}

# Where the client takes diagnostics each change is checked. The check is told where its result comes before the next change.
workers 2
-> {"id":0,"jsonrpc":"2.0","method":"initialize","params":{"capabilities":{"textDocument":{"publishDiagnostics":{}},"workspace":{"workspaceEdit":{"documentChanges":true}}},"processId":null,"rootUri":null}}
<- {"id":0,"jsonrpc":"2.0","result":{"capabilities":{"renameProvider":true,"textDocumentSync":{"change":2,"openClose":true}},"serverInfo":{"name":"gqls"}}}
-> {"jsonrpc":"2.0","method":"textDocument/didOpen","params":{"textDocument":{"languageId":"graphql","text":"type Query{x:Int}","uri":"file:///s.graphql","version":1}}}
put file:///s.graphql 1
job 1
done 1 of 1 seeing now
<- {"jsonrpc":"2.0","method":"textDocument/publishDiagnostics","params":{"diagnostics":[],"uri":"file:///s.graphql","version":1}}
-> {"jsonrpc":"2.0","method":"textDocument/didOpen","params":{"textDocument":{"languageId":"graphql","text":"{y}","uri":"file:///q.graphql","version":1}}}
put file:///q.graphql 1
job 2
-> {"jsonrpc":"2.0","method":"textDocument/didChange","params":{"contentChanges":[{"text":"{x}"}],"textDocument":{"uri":"file:///q.graphql","version":2}}}
put file:///q.graphql 2
job 3
done 2 of 2 seeing 2
done 3 of 3 seeing now
<- {"jsonrpc":"2.0","method":"textDocument/publishDiagnostics","params":{"diagnostics":[],"uri":"file:///q.graphql","version":2}}
<- {"jsonrpc":"2.0","method":"textDocument/publishDiagnostics","params":{"diagnostics":[],"uri":"file:///s.graphql","version":1}}
done 3 of 3 seeing now
-> {"jsonrpc":"2.0","method":"textDocument/didClose","params":{"textDocument":{"uri":"file:///q.graphql"}}}
<- {"jsonrpc":"2.0","method":"textDocument/publishDiagnostics","params":{"diagnostics":[],"uri":"file:///q.graphql"}}
close file:///q.graphql
job 4
-> {"id":1,"jsonrpc":"2.0","method":"textDocument/hover","params":{"position":{"character":0,"line":0},"textDocument":{"uri":"file:///s.graphql"}}}
job 5
-> {"id":2,"jsonrpc":"2.0","method":"shutdown"}
<- {"error":{"code":-32803,"message":"shutdown"},"id":1,"jsonrpc":"2.0"}
<- {"id":2,"jsonrpc":"2.0","result":null}
done 4 of 4 seeing now

# A check takes none of the 64 places for questions, but a job of it is out until its result comes, also where nobody waits for that. A waiting
# job whose request is cancelled is dropped.
workers 2
-> {"id":0,"jsonrpc":"2.0","method":"initialize","params":{"capabilities":{"textDocument":{"publishDiagnostics":{}},"workspace":{"workspaceEdit":{"documentChanges":true}}},"processId":null,"rootUri":null}}
<- {"id":0,"jsonrpc":"2.0","result":{"capabilities":{"renameProvider":true,"textDocumentSync":{"change":2,"openClose":true}},"serverInfo":{"name":"gqls"}}}
-> {"jsonrpc":"2.0","method":"textDocument/didOpen","params":{"textDocument":{"languageId":"graphql","text":"type Query{x:Int}","uri":"file:///s.graphql","version":1}}}
put file:///s.graphql 1
job 1
-> {"jsonrpc":"2.0","method":"textDocument/didOpen","params":{"textDocument":{"languageId":"graphql","text":"query Q{...A} fragment A on Query{x}","uri":"file:///q.graphql","version":1}}}
put file:///q.graphql 1
job 2
-> {"id":1,"jsonrpc":"2.0","method":"textDocument/hover","params":{"position":{"character":0,"line":0},"textDocument":{"uri":"file:///q.graphql"}}}
job 3
-> {"id":2,"jsonrpc":"2.0","method":"textDocument/hover","params":{"position":{"character":0,"line":0},"textDocument":{"uri":"file:///q.graphql"}}}
job 4
-> {"id":3,"jsonrpc":"2.0","method":"textDocument/hover","params":{"position":{"character":0,"line":0},"textDocument":{"uri":"file:///q.graphql"}}}
job 5
-> {"id":4,"jsonrpc":"2.0","method":"textDocument/hover","params":{"position":{"character":0,"line":0},"textDocument":{"uri":"file:///q.graphql"}}}
job 6
-> {"id":5,"jsonrpc":"2.0","method":"textDocument/hover","params":{"position":{"character":0,"line":0},"textDocument":{"uri":"file:///q.graphql"}}}
job 7
-> {"id":6,"jsonrpc":"2.0","method":"textDocument/hover","params":{"position":{"character":0,"line":0},"textDocument":{"uri":"file:///q.graphql"}}}
job 8
-> {"id":7,"jsonrpc":"2.0","method":"textDocument/hover","params":{"position":{"character":0,"line":0},"textDocument":{"uri":"file:///q.graphql"}}}
job 9
-> {"id":8,"jsonrpc":"2.0","method":"textDocument/hover","params":{"position":{"character":0,"line":0},"textDocument":{"uri":"file:///q.graphql"}}}
job 10
-> {"id":9,"jsonrpc":"2.0","method":"textDocument/hover","params":{"position":{"character":0,"line":0},"textDocument":{"uri":"file:///q.graphql"}}}
job 11
-> {"id":10,"jsonrpc":"2.0","method":"textDocument/hover","params":{"position":{"character":0,"line":0},"textDocument":{"uri":"file:///q.graphql"}}}
job 12
-> {"id":11,"jsonrpc":"2.0","method":"textDocument/hover","params":{"position":{"character":0,"line":0},"textDocument":{"uri":"file:///q.graphql"}}}
job 13
-> {"id":12,"jsonrpc":"2.0","method":"textDocument/hover","params":{"position":{"character":0,"line":0},"textDocument":{"uri":"file:///q.graphql"}}}
job 14
-> {"id":13,"jsonrpc":"2.0","method":"textDocument/hover","params":{"position":{"character":0,"line":0},"textDocument":{"uri":"file:///q.graphql"}}}
job 15
-> {"id":14,"jsonrpc":"2.0","method":"textDocument/hover","params":{"position":{"character":0,"line":0},"textDocument":{"uri":"file:///q.graphql"}}}
job 16
-> {"id":15,"jsonrpc":"2.0","method":"textDocument/hover","params":{"position":{"character":0,"line":0},"textDocument":{"uri":"file:///q.graphql"}}}
job 17
-> {"id":16,"jsonrpc":"2.0","method":"textDocument/hover","params":{"position":{"character":0,"line":0},"textDocument":{"uri":"file:///q.graphql"}}}
job 18
-> {"id":17,"jsonrpc":"2.0","method":"textDocument/hover","params":{"position":{"character":0,"line":0},"textDocument":{"uri":"file:///q.graphql"}}}
job 19
-> {"id":18,"jsonrpc":"2.0","method":"textDocument/hover","params":{"position":{"character":0,"line":0},"textDocument":{"uri":"file:///q.graphql"}}}
job 20
-> {"id":19,"jsonrpc":"2.0","method":"textDocument/hover","params":{"position":{"character":0,"line":0},"textDocument":{"uri":"file:///q.graphql"}}}
job 21
-> {"id":20,"jsonrpc":"2.0","method":"textDocument/hover","params":{"position":{"character":0,"line":0},"textDocument":{"uri":"file:///q.graphql"}}}
job 22
-> {"id":21,"jsonrpc":"2.0","method":"textDocument/hover","params":{"position":{"character":0,"line":0},"textDocument":{"uri":"file:///q.graphql"}}}
job 23
-> {"id":22,"jsonrpc":"2.0","method":"textDocument/hover","params":{"position":{"character":0,"line":0},"textDocument":{"uri":"file:///q.graphql"}}}
job 24
-> {"id":23,"jsonrpc":"2.0","method":"textDocument/hover","params":{"position":{"character":0,"line":0},"textDocument":{"uri":"file:///q.graphql"}}}
job 25
-> {"id":24,"jsonrpc":"2.0","method":"textDocument/hover","params":{"position":{"character":0,"line":0},"textDocument":{"uri":"file:///q.graphql"}}}
job 26
-> {"id":25,"jsonrpc":"2.0","method":"textDocument/hover","params":{"position":{"character":0,"line":0},"textDocument":{"uri":"file:///q.graphql"}}}
job 27
-> {"id":26,"jsonrpc":"2.0","method":"textDocument/hover","params":{"position":{"character":0,"line":0},"textDocument":{"uri":"file:///q.graphql"}}}
job 28
-> {"id":27,"jsonrpc":"2.0","method":"textDocument/hover","params":{"position":{"character":0,"line":0},"textDocument":{"uri":"file:///q.graphql"}}}
job 29
-> {"id":28,"jsonrpc":"2.0","method":"textDocument/hover","params":{"position":{"character":0,"line":0},"textDocument":{"uri":"file:///q.graphql"}}}
job 30
-> {"id":29,"jsonrpc":"2.0","method":"textDocument/hover","params":{"position":{"character":0,"line":0},"textDocument":{"uri":"file:///q.graphql"}}}
job 31
-> {"id":30,"jsonrpc":"2.0","method":"textDocument/hover","params":{"position":{"character":0,"line":0},"textDocument":{"uri":"file:///q.graphql"}}}
job 32
-> {"id":31,"jsonrpc":"2.0","method":"textDocument/hover","params":{"position":{"character":0,"line":0},"textDocument":{"uri":"file:///q.graphql"}}}
job 33
-> {"id":32,"jsonrpc":"2.0","method":"textDocument/hover","params":{"position":{"character":0,"line":0},"textDocument":{"uri":"file:///q.graphql"}}}
job 34
-> {"id":33,"jsonrpc":"2.0","method":"textDocument/hover","params":{"position":{"character":0,"line":0},"textDocument":{"uri":"file:///q.graphql"}}}
job 35
-> {"id":34,"jsonrpc":"2.0","method":"textDocument/hover","params":{"position":{"character":0,"line":0},"textDocument":{"uri":"file:///q.graphql"}}}
job 36
-> {"id":35,"jsonrpc":"2.0","method":"textDocument/hover","params":{"position":{"character":0,"line":0},"textDocument":{"uri":"file:///q.graphql"}}}
job 37
-> {"id":36,"jsonrpc":"2.0","method":"textDocument/hover","params":{"position":{"character":0,"line":0},"textDocument":{"uri":"file:///q.graphql"}}}
job 38
-> {"id":37,"jsonrpc":"2.0","method":"textDocument/hover","params":{"position":{"character":0,"line":0},"textDocument":{"uri":"file:///q.graphql"}}}
job 39
-> {"id":38,"jsonrpc":"2.0","method":"textDocument/hover","params":{"position":{"character":0,"line":0},"textDocument":{"uri":"file:///q.graphql"}}}
job 40
-> {"id":39,"jsonrpc":"2.0","method":"textDocument/hover","params":{"position":{"character":0,"line":0},"textDocument":{"uri":"file:///q.graphql"}}}
job 41
-> {"id":40,"jsonrpc":"2.0","method":"textDocument/hover","params":{"position":{"character":0,"line":0},"textDocument":{"uri":"file:///q.graphql"}}}
job 42
-> {"id":41,"jsonrpc":"2.0","method":"textDocument/hover","params":{"position":{"character":0,"line":0},"textDocument":{"uri":"file:///q.graphql"}}}
job 43
-> {"id":42,"jsonrpc":"2.0","method":"textDocument/hover","params":{"position":{"character":0,"line":0},"textDocument":{"uri":"file:///q.graphql"}}}
job 44
-> {"id":43,"jsonrpc":"2.0","method":"textDocument/hover","params":{"position":{"character":0,"line":0},"textDocument":{"uri":"file:///q.graphql"}}}
job 45
-> {"id":44,"jsonrpc":"2.0","method":"textDocument/hover","params":{"position":{"character":0,"line":0},"textDocument":{"uri":"file:///q.graphql"}}}
job 46
-> {"id":45,"jsonrpc":"2.0","method":"textDocument/hover","params":{"position":{"character":0,"line":0},"textDocument":{"uri":"file:///q.graphql"}}}
job 47
-> {"id":46,"jsonrpc":"2.0","method":"textDocument/hover","params":{"position":{"character":0,"line":0},"textDocument":{"uri":"file:///q.graphql"}}}
job 48
-> {"id":47,"jsonrpc":"2.0","method":"textDocument/hover","params":{"position":{"character":0,"line":0},"textDocument":{"uri":"file:///q.graphql"}}}
job 49
-> {"id":48,"jsonrpc":"2.0","method":"textDocument/hover","params":{"position":{"character":0,"line":0},"textDocument":{"uri":"file:///q.graphql"}}}
job 50
-> {"id":49,"jsonrpc":"2.0","method":"textDocument/hover","params":{"position":{"character":0,"line":0},"textDocument":{"uri":"file:///q.graphql"}}}
job 51
-> {"id":50,"jsonrpc":"2.0","method":"textDocument/hover","params":{"position":{"character":0,"line":0},"textDocument":{"uri":"file:///q.graphql"}}}
job 52
-> {"id":51,"jsonrpc":"2.0","method":"textDocument/hover","params":{"position":{"character":0,"line":0},"textDocument":{"uri":"file:///q.graphql"}}}
job 53
-> {"id":52,"jsonrpc":"2.0","method":"textDocument/hover","params":{"position":{"character":0,"line":0},"textDocument":{"uri":"file:///q.graphql"}}}
job 54
-> {"id":53,"jsonrpc":"2.0","method":"textDocument/hover","params":{"position":{"character":0,"line":0},"textDocument":{"uri":"file:///q.graphql"}}}
job 55
-> {"id":54,"jsonrpc":"2.0","method":"textDocument/hover","params":{"position":{"character":0,"line":0},"textDocument":{"uri":"file:///q.graphql"}}}
job 56
-> {"id":55,"jsonrpc":"2.0","method":"textDocument/hover","params":{"position":{"character":0,"line":0},"textDocument":{"uri":"file:///q.graphql"}}}
job 57
-> {"id":56,"jsonrpc":"2.0","method":"textDocument/hover","params":{"position":{"character":0,"line":0},"textDocument":{"uri":"file:///q.graphql"}}}
job 58
-> {"id":57,"jsonrpc":"2.0","method":"textDocument/hover","params":{"position":{"character":0,"line":0},"textDocument":{"uri":"file:///q.graphql"}}}
job 59
-> {"id":58,"jsonrpc":"2.0","method":"textDocument/hover","params":{"position":{"character":0,"line":0},"textDocument":{"uri":"file:///q.graphql"}}}
job 60
-> {"id":59,"jsonrpc":"2.0","method":"textDocument/hover","params":{"position":{"character":0,"line":0},"textDocument":{"uri":"file:///q.graphql"}}}
job 61
-> {"id":60,"jsonrpc":"2.0","method":"textDocument/hover","params":{"position":{"character":0,"line":0},"textDocument":{"uri":"file:///q.graphql"}}}
job 62
-> {"id":61,"jsonrpc":"2.0","method":"textDocument/hover","params":{"position":{"character":0,"line":0},"textDocument":{"uri":"file:///q.graphql"}}}
job 63
-> {"id":62,"jsonrpc":"2.0","method":"textDocument/hover","params":{"position":{"character":0,"line":0},"textDocument":{"uri":"file:///q.graphql"}}}
job 64
-> {"id":63,"jsonrpc":"2.0","method":"textDocument/hover","params":{"position":{"character":0,"line":0},"textDocument":{"uri":"file:///q.graphql"}}}
-> {"id":64,"jsonrpc":"2.0","method":"textDocument/hover","params":{"position":{"character":0,"line":0},"textDocument":{"uri":"file:///q.graphql"}}}
-> {"id":65,"jsonrpc":"2.0","method":"textDocument/hover","params":{"position":{"character":0,"line":0},"textDocument":{"uri":"file:///q.graphql"}}}
<- {"error":{"code":-32803,"message":"too many pending"},"id":65,"jsonrpc":"2.0"}
-> {"jsonrpc":"2.0","method":"$/cancelRequest","params":{"id":99}}
-> {"jsonrpc":"2.0","method":"$/cancelRequest","params":{"id":64}}
<- {"error":{"code":-32800,"message":"cancelled"},"id":64,"jsonrpc":"2.0"}
done 1 of 1 seeing 1
job 65
done 2 of 2 seeing now
<- {"jsonrpc":"2.0","method":"textDocument/publishDiagnostics","params":{"diagnostics":[],"uri":"file:///q.graphql","version":1}}
<- {"jsonrpc":"2.0","method":"textDocument/publishDiagnostics","params":{"diagnostics":[],"uri":"file:///s.graphql","version":1}}
-> {"id":66,"jsonrpc":"2.0","method":"textDocument/hover","params":{"position":{"character":0,"line":0},"textDocument":{"uri":"file:///q.graphql"}}}
job 67

# Ids that are numbers and ids that are texts differ.
workers 2
-> {"id":0,"jsonrpc":"2.0","method":"initialize","params":{"capabilities":{"workspace":{"workspaceEdit":{"documentChanges":true}}},"processId":null,"rootUri":null}}
<- {"id":0,"jsonrpc":"2.0","result":{"capabilities":{"renameProvider":true,"textDocumentSync":{"change":2,"openClose":true}},"serverInfo":{"name":"gqls"}}}
-> {"jsonrpc":"2.0","method":"textDocument/didOpen","params":{"textDocument":{"languageId":"graphql","text":"type Query{x:Int}","uri":"file:///s.graphql","version":1}}}
put file:///s.graphql 1
-> {"jsonrpc":"2.0","method":"textDocument/didOpen","params":{"textDocument":{"languageId":"graphql","text":"query Q{...A} fragment A on Query{x}","uri":"file:///q.graphql","version":1}}}
put file:///q.graphql 1
-> {"id":1,"jsonrpc":"2.0","method":"textDocument/hover","params":{"position":{"character":0,"line":0},"textDocument":{"uri":"file:///q.graphql"}}}
job 1
-> {"id":"1","jsonrpc":"2.0","method":"textDocument/hover","params":{"position":{"character":0,"line":0},"textDocument":{"uri":"file:///q.graphql"}}}
job 2
-> {"jsonrpc":"2.0","method":"$/cancelRequest","params":{"id":"1"}}
<- {"error":{"code":-32800,"message":"cancelled"},"id":"1","jsonrpc":"2.0"}
done 1 of 1 seeing now
<- {"id":1,"jsonrpc":"2.0","result":null}

# Before `initialize` and after the end nothing is pending. A result without a job is nothing.
workers 2
-> {"id":1,"jsonrpc":"2.0","method":"textDocument/hover","params":{"position":{"character":0,"line":0},"textDocument":{"uri":"file:///q.graphql"}}}
<- {"error":{"code":-32002,"message":"not initialized"},"id":1,"jsonrpc":"2.0"}
-> {"id":0,"jsonrpc":"2.0","method":"initialize","params":{"capabilities":{"workspace":{"workspaceEdit":{"documentChanges":true}}},"processId":null,"rootUri":null}}
<- {"id":0,"jsonrpc":"2.0","result":{"capabilities":{"renameProvider":true,"textDocumentSync":{"change":2,"openClose":true}},"serverInfo":{"name":"gqls"}}}
-> {"jsonrpc":"2.0","method":"textDocument/didOpen","params":{"textDocument":{"languageId":"graphql","text":"type Query{x:Int}","uri":"file:///s.graphql","version":1}}}
put file:///s.graphql 1
-> {"id":2,"jsonrpc":"2.0","method":"textDocument/hover","params":{"position":{"character":0,"line":0},"textDocument":{"uri":"file:///s.graphql"}}}
job 1
end border
stop 1
done 1 of 1 seeing now
-> {"id":3,"jsonrpc":"2.0","method":"textDocument/hover","params":{"position":{"character":0,"line":0},"textDocument":{"uri":"file:///s.graphql"}}}

workers 2
end fault
stop 3

# With no workers each question is answered in its own step, and nothing is put out for workers to see.
workers 0
-> {"id":0,"jsonrpc":"2.0","method":"initialize","params":{"capabilities":{"workspace":{"workspaceEdit":{"documentChanges":true}}},"processId":null,"rootUri":null}}
<- {"id":0,"jsonrpc":"2.0","result":{"capabilities":{"renameProvider":true,"textDocumentSync":{"change":2,"openClose":true}},"serverInfo":{"name":"gqls"}}}
-> {"jsonrpc":"2.0","method":"textDocument/didOpen","params":{"textDocument":{"languageId":"graphql","text":"type Query{x:Int}","uri":"file:///s.graphql","version":1}}}
-> {"jsonrpc":"2.0","method":"textDocument/didOpen","params":{"textDocument":{"languageId":"graphql","text":"query Q{...A} fragment A on Query{x}","uri":"file:///q.graphql","version":1}}}
-> {"id":1,"jsonrpc":"2.0","method":"textDocument/rename","params":{"newName":"B","position":{"character":11,"line":0},"textDocument":{"uri":"file:///q.graphql"}}}
<- {"id":1,"jsonrpc":"2.0","result":{"documentChanges":[{"edits":[{"newText":"B","range":{"end":{"character":12,"line":0},"start":{"character":11,"line":0}}},{"newText":"B","range":{"end":{"character":24,"line":0},"start":{"character":23,"line":0}}}],"textDocument":{"uri":"file:///q.graphql","version":1}}]}}
-> {"jsonrpc":"2.0","method":"textDocument/didChange","params":{"contentChanges":[{"text":"type Query{x:Int}"}],"textDocument":{"uri":"file:///s.graphql","version":2}}}
-> {"id":2,"jsonrpc":"2.0","method":"textDocument/rename","params":{"newName":"A","position":{"character":11,"line":0},"textDocument":{"uri":"file:///q.graphql"}}}
<- {"error":{"code":-32803,"message":"4 SameName"},"id":2,"jsonrpc":"2.0"}

# Positions are counted in the encoding that the client chooses: those of questions, of changes and of what is answered. What a worker made in
# another one is of no use.
workers 2
-> {"id":0,"jsonrpc":"2.0","method":"initialize","params":{"capabilities":{"general":{"positionEncodings":["utf-32","utf-8","utf-16"]},"workspace":{"workspaceEdit":{"documentChanges":true}}},"processId":null,"rootUri":null}}
<- {"id":0,"jsonrpc":"2.0","result":{"capabilities":{"positionEncoding":"utf-8","renameProvider":true,"textDocumentSync":{"change":2,"openClose":true}},"serverInfo":{"name":"gqls"}}}
-> {"jsonrpc":"2.0","method":"textDocument/didOpen","params":{"textDocument":{"languageId":"graphql","text":"type Query{f(s:String):Int x:Int}","uri":"file:///s.graphql","version":1}}}
put file:///s.graphql 1
-> {"jsonrpc":"2.0","method":"textDocument/didOpen","params":{"textDocument":{"languageId":"graphql","text":"{f(s:\"😀\")...F} fragment F on Query{x}","uri":"file:///q.graphql","version":1}}}
put file:///q.graphql 1
-> {"id":7,"jsonrpc":"2.0","method":"textDocument/rename","params":{"newName":"G","position":{"character":15,"line":0},"textDocument":{"uri":"file:///q.graphql"}}}
job 1
done 1 of {"id":7,"jsonrpc":"2.0","method":"textDocument/rename","params":{"newName":"G","position":{"character":15,"line":0},"textDocument":{"uri":"file:///q.graphql"}}} seeing now
done 1 of 1 seeing now
<- {"id":7,"jsonrpc":"2.0","result":{"documentChanges":[{"edits":[{"newText":"G","range":{"end":{"character":16,"line":0},"start":{"character":15,"line":0}}},{"newText":"G","range":{"end":{"character":28,"line":0},"start":{"character":27,"line":0}}}],"textDocument":{"uri":"file:///q.graphql","version":1}}]}}
-> {"jsonrpc":"2.0","method":"textDocument/didChange","params":{"contentChanges":[{"range":{"end":{"character":16,"line":0},"start":{"character":15,"line":0}},"text":"H"},{"range":{"end":{"character":28,"line":0},"start":{"character":27,"line":0}},"text":"H"}],"textDocument":{"uri":"file:///q.graphql","version":2}}}
put file:///q.graphql 2
-> {"id":8,"jsonrpc":"2.0","method":"textDocument/rename","params":{"newName":"F","position":{"character":27,"line":0},"textDocument":{"uri":"file:///q.graphql"}}}
job 2
done 2 of 2 seeing now
<- {"id":8,"jsonrpc":"2.0","result":{"documentChanges":[{"edits":[{"newText":"F","range":{"end":{"character":16,"line":0},"start":{"character":15,"line":0}}},{"newText":"F","range":{"end":{"character":28,"line":0},"start":{"character":27,"line":0}}}],"textDocument":{"uri":"file:///q.graphql","version":2}}]}}

# Where the client lists none that is known, UTF-16 is told, and positions are counted in it.
workers 0
-> {"id":0,"jsonrpc":"2.0","method":"initialize","params":{"capabilities":{"general":{"positionEncodings":["utf-32"]},"workspace":{"workspaceEdit":{"documentChanges":true}}},"processId":null,"rootUri":null}}
<- {"id":0,"jsonrpc":"2.0","result":{"capabilities":{"positionEncoding":"utf-16","renameProvider":true,"textDocumentSync":{"change":2,"openClose":true}},"serverInfo":{"name":"gqls"}}}
-> {"jsonrpc":"2.0","method":"textDocument/didOpen","params":{"textDocument":{"languageId":"graphql","text":"type Query{f(s:String):Int x:Int}","uri":"file:///s.graphql","version":1}}}
-> {"jsonrpc":"2.0","method":"textDocument/didOpen","params":{"textDocument":{"languageId":"graphql","text":"{f(s:\"😀\")...F} fragment F on Query{x}","uri":"file:///q.graphql","version":1}}}
-> {"id":7,"jsonrpc":"2.0","method":"textDocument/rename","params":{"newName":"G","position":{"character":13,"line":0},"textDocument":{"uri":"file:///q.graphql"}}}
<- {"id":7,"jsonrpc":"2.0","result":{"documentChanges":[{"edits":[{"newText":"G","range":{"end":{"character":14,"line":0},"start":{"character":13,"line":0}}},{"newText":"G","range":{"end":{"character":26,"line":0},"start":{"character":25,"line":0}}}],"textDocument":{"uri":"file:///q.graphql","version":1}}]}}

# A file that is loaded changes the documents: what is pending is of no use. Of one that is open it changes nothing.
workers 2
load file:///w/f.graphql text fragment A on Query{x}
put file:///w/f.graphql null
-> {"id":0,"jsonrpc":"2.0","method":"initialize","params":{"capabilities":{"workspace":{"workspaceEdit":{"documentChanges":true}}},"processId":null,"rootUri":null}}
<- {"id":0,"jsonrpc":"2.0","result":{"capabilities":{"renameProvider":true,"textDocumentSync":{"change":2,"openClose":true}},"serverInfo":{"name":"gqls"}}}
-> {"jsonrpc":"2.0","method":"textDocument/didOpen","params":{"textDocument":{"languageId":"graphql","text":"type Query{x:Int}","uri":"file:///w/s.graphql","version":1}}}
put file:///w/s.graphql 1
-> {"jsonrpc":"2.0","method":"textDocument/didOpen","params":{"textDocument":{"languageId":"graphql","text":"{...A}","uri":"file:///w/q.graphql","version":1}}}
put file:///w/q.graphql 1
-> {"id":7,"jsonrpc":"2.0","method":"textDocument/rename","params":{"newName":"B","position":{"character":4,"line":0},"textDocument":{"uri":"file:///w/q.graphql"}}}
job 1
load file:///w/f.graphql text fragment A on Query{x x}
<- {"error":{"code":-32801,"message":"content modified"},"id":7,"jsonrpc":"2.0"}
put file:///w/f.graphql null
done 1 of 1 seeing 1
-> {"id":8,"jsonrpc":"2.0","method":"textDocument/rename","params":{"newName":"B","position":{"character":4,"line":0},"textDocument":{"uri":"file:///w/q.graphql"}}}
job 2
done 2 of 2 seeing now
<- {"id":8,"jsonrpc":"2.0","result":{"documentChanges":[{"edits":[{"newText":"B","range":{"end":{"character":10,"line":0},"start":{"character":9,"line":0}}}],"textDocument":{"uri":"file:///w/f.graphql","version":null}},{"edits":[{"newText":"B","range":{"end":{"character":5,"line":0},"start":{"character":4,"line":0}}}],"textDocument":{"uri":"file:///w/q.graphql","version":1}}]}}

workers 2
load file:///w/f.graphql text fragment A on Query{x}
put file:///w/f.graphql null
-> {"id":0,"jsonrpc":"2.0","method":"initialize","params":{"capabilities":{"workspace":{"workspaceEdit":{"documentChanges":true}}},"processId":null,"rootUri":null}}
<- {"id":0,"jsonrpc":"2.0","result":{"capabilities":{"renameProvider":true,"textDocumentSync":{"change":2,"openClose":true}},"serverInfo":{"name":"gqls"}}}
-> {"jsonrpc":"2.0","method":"textDocument/didOpen","params":{"textDocument":{"languageId":"graphql","text":"type Query{x:Int}","uri":"file:///w/s.graphql","version":1}}}
put file:///w/s.graphql 1
-> {"jsonrpc":"2.0","method":"textDocument/didOpen","params":{"textDocument":{"languageId":"graphql","text":"{...A}","uri":"file:///w/q.graphql","version":1}}}
put file:///w/q.graphql 1
-> {"jsonrpc":"2.0","method":"textDocument/didOpen","params":{"textDocument":{"languageId":"graphql","text":"fragment A on Query{x}","uri":"file:///w/f.graphql","version":1}}}
put file:///w/f.graphql 1
-> {"id":7,"jsonrpc":"2.0","method":"textDocument/rename","params":{"newName":"B","position":{"character":4,"line":0},"textDocument":{"uri":"file:///w/q.graphql"}}}
job 1
load file:///w/f.graphql text fragment A on Query{x x}
done 1 of 1 seeing 1
<- {"id":7,"jsonrpc":"2.0","result":{"documentChanges":[{"edits":[{"newText":"B","range":{"end":{"character":10,"line":0},"start":{"character":9,"line":0}}}],"textDocument":{"uri":"file:///w/f.graphql","version":1}},{"edits":[{"newText":"B","range":{"end":{"character":5,"line":0},"start":{"character":4,"line":0}}}],"textDocument":{"uri":"file:///w/q.graphql","version":1}}]}}

# A document that is closed is the one that was loaded last, and gone where that is. Asks are about open documents alone.
workers 0
load file:///w/f.graphql text fragment A on Query{x}
-> {"id":0,"jsonrpc":"2.0","method":"initialize","params":{"capabilities":{"workspace":{"workspaceEdit":{"documentChanges":true}}},"processId":null,"rootUri":null}}
<- {"id":0,"jsonrpc":"2.0","result":{"capabilities":{"renameProvider":true,"textDocumentSync":{"change":2,"openClose":true}},"serverInfo":{"name":"gqls"}}}
-> {"jsonrpc":"2.0","method":"textDocument/didOpen","params":{"textDocument":{"languageId":"graphql","text":"type Query{x:Int}","uri":"file:///w/s.graphql","version":1}}}
-> {"jsonrpc":"2.0","method":"textDocument/didOpen","params":{"textDocument":{"languageId":"graphql","text":"{...A}","uri":"file:///w/q.graphql","version":1}}}
-> {"id":1,"jsonrpc":"2.0","method":"textDocument/rename","params":{"newName":"B","position":{"character":9,"line":0},"textDocument":{"uri":"file:///w/f.graphql"}}}
<- {"error":{"code":-32602,"message":"invalid params"},"id":1,"jsonrpc":"2.0"}
-> {"jsonrpc":"2.0","method":"textDocument/didOpen","params":{"textDocument":{"languageId":"graphql","text":"fragment C on Query{x}","uri":"file:///w/f.graphql","version":1}}}
-> {"id":2,"jsonrpc":"2.0","method":"textDocument/rename","params":{"newName":"B","position":{"character":4,"line":0},"textDocument":{"uri":"file:///w/q.graphql"}}}
<- {"error":{"code":-32803,"message":"1 ProjectInvalid"},"id":2,"jsonrpc":"2.0"}
load file:///w/f.graphql text fragment A on Query{ x }
-> {"jsonrpc":"2.0","method":"textDocument/didClose","params":{"textDocument":{"uri":"file:///w/f.graphql"}}}
-> {"id":3,"jsonrpc":"2.0","method":"textDocument/rename","params":{"newName":"B","position":{"character":4,"line":0},"textDocument":{"uri":"file:///w/q.graphql"}}}
<- {"id":3,"jsonrpc":"2.0","result":{"documentChanges":[{"edits":[{"newText":"B","range":{"end":{"character":10,"line":0},"start":{"character":9,"line":0}}}],"textDocument":{"uri":"file:///w/f.graphql","version":null}},{"edits":[{"newText":"B","range":{"end":{"character":5,"line":0},"start":{"character":4,"line":0}}}],"textDocument":{"uri":"file:///w/q.graphql","version":1}}]}}
load file:///w/f.graphql gone
-> {"id":4,"jsonrpc":"2.0","method":"textDocument/rename","params":{"newName":"B","position":{"character":4,"line":0},"textDocument":{"uri":"file:///w/q.graphql"}}}
<- {"error":{"code":-32803,"message":"1 ProjectInvalid"},"id":4,"jsonrpc":"2.0"}
load file:///w/f.graphql gone
load file:///w/f.graphql text fragment A on Query{x}
-> {"id":5,"jsonrpc":"2.0","method":"textDocument/rename","params":{"newName":"A","position":{"character":4,"line":0},"textDocument":{"uri":"file:///w/q.graphql"}}}
<- {"error":{"code":-32803,"message":"4 SameName"},"id":5,"jsonrpc":"2.0"}

# What is loaded and is no text is lost, until it is loaded again or opened; behind an open document it is lost once that is closed.
workers 0
-> {"id":0,"jsonrpc":"2.0","method":"initialize","params":{"capabilities":{"workspace":{"workspaceEdit":{"documentChanges":true}}},"processId":null,"rootUri":null}}
<- {"id":0,"jsonrpc":"2.0","result":{"capabilities":{"renameProvider":true,"textDocumentSync":{"change":2,"openClose":true}},"serverInfo":{"name":"gqls"}}}
load file:///w/f.graphql unfit
-> {"jsonrpc":"2.0","method":"textDocument/didOpen","params":{"textDocument":{"languageId":"graphql","text":"type Query{x:Int}","uri":"file:///w/s.graphql","version":1}}}
-> {"jsonrpc":"2.0","method":"textDocument/didOpen","params":{"textDocument":{"languageId":"graphql","text":"{...A}","uri":"file:///w/q.graphql","version":1}}}
-> {"id":1,"jsonrpc":"2.0","method":"textDocument/rename","params":{"newName":"B","position":{"character":4,"line":0},"textDocument":{"uri":"file:///w/q.graphql"}}}
<- {"error":{"code":-32803,"message":"document lost"},"id":1,"jsonrpc":"2.0"}
-> {"jsonrpc":"2.0","method":"textDocument/didOpen","params":{"textDocument":{"languageId":"graphql","text":"fragment A on Query{x}","uri":"file:///w/f.graphql","version":1}}}
-> {"id":2,"jsonrpc":"2.0","method":"textDocument/rename","params":{"newName":"A","position":{"character":4,"line":0},"textDocument":{"uri":"file:///w/q.graphql"}}}
<- {"error":{"code":-32803,"message":"4 SameName"},"id":2,"jsonrpc":"2.0"}
-> {"jsonrpc":"2.0","method":"textDocument/didClose","params":{"textDocument":{"uri":"file:///w/f.graphql"}}}
-> {"id":3,"jsonrpc":"2.0","method":"textDocument/rename","params":{"newName":"B","position":{"character":4,"line":0},"textDocument":{"uri":"file:///w/q.graphql"}}}
<- {"error":{"code":-32803,"message":"document lost"},"id":3,"jsonrpc":"2.0"}
load file:///w/f.graphql text fragment A on Query{x}
-> {"id":4,"jsonrpc":"2.0","method":"textDocument/rename","params":{"newName":"A","position":{"character":4,"line":0},"textDocument":{"uri":"file:///w/q.graphql"}}}
<- {"error":{"code":-32803,"message":"4 SameName"},"id":4,"jsonrpc":"2.0"}
-> {"jsonrpc":"2.0","method":"textDocument/didOpen","params":{"textDocument":{"languageId":"graphql","text":"fragment A on Query{x}","uri":"file:///w/f.graphql","version":1}}}
load file:///w/f.graphql unfit
-> {"id":5,"jsonrpc":"2.0","method":"textDocument/rename","params":{"newName":"A","position":{"character":4,"line":0},"textDocument":{"uri":"file:///w/q.graphql"}}}
<- {"error":{"code":-32803,"message":"4 SameName"},"id":5,"jsonrpc":"2.0"}
-> {"jsonrpc":"2.0","method":"textDocument/didClose","params":{"textDocument":{"uri":"file:///w/f.graphql"}}}
-> {"id":6,"jsonrpc":"2.0","method":"textDocument/rename","params":{"newName":"B","position":{"character":4,"line":0},"textDocument":{"uri":"file:///w/q.graphql"}}}
<- {"error":{"code":-32803,"message":"document lost"},"id":6,"jsonrpc":"2.0"}
load file:///w/f.graphql gone
-> {"id":7,"jsonrpc":"2.0","method":"textDocument/rename","params":{"newName":"B","position":{"character":4,"line":0},"textDocument":{"uri":"file:///w/q.graphql"}}}
<- {"error":{"code":-32803,"message":"1 ProjectInvalid"},"id":7,"jsonrpc":"2.0"}

# Diagnostics are written for open documents alone, after each change, a close and its file among them.
workers 0
load file:///w/s.graphql text type Query{x:Int}
load file:///w/f.graphql text fragment A on Query{y}
-> {"id":0,"jsonrpc":"2.0","method":"initialize","params":{"capabilities":{"textDocument":{"publishDiagnostics":{}},"workspace":{"workspaceEdit":{"documentChanges":true}}},"processId":null,"rootUri":null}}
<- {"id":0,"jsonrpc":"2.0","result":{"capabilities":{"renameProvider":true,"textDocumentSync":{"change":2,"openClose":true}},"serverInfo":{"name":"gqls"}}}
-> {"jsonrpc":"2.0","method":"textDocument/didOpen","params":{"textDocument":{"languageId":"graphql","text":"{...A}","uri":"file:///w/q.graphql","version":1}}}
<- {"jsonrpc":"2.0","method":"textDocument/publishDiagnostics","params":{"diagnostics":[],"uri":"file:///w/q.graphql","version":1}}
-> {"jsonrpc":"2.0","method":"textDocument/didOpen","params":{"textDocument":{"languageId":"graphql","text":"fragment A on Query{y}","uri":"file:///w/f.graphql","version":1}}}
<- {"jsonrpc":"2.0","method":"textDocument/publishDiagnostics","params":{"diagnostics":[{"code":"V4","message":"unknown field","range":{"end":{"character":21,"line":0},"start":{"character":20,"line":0}},"severity":1,"source":"gqls"}],"uri":"file:///w/f.graphql","version":1}}
<- {"jsonrpc":"2.0","method":"textDocument/publishDiagnostics","params":{"diagnostics":[],"uri":"file:///w/q.graphql","version":1}}
-> {"jsonrpc":"2.0","method":"textDocument/didClose","params":{"textDocument":{"uri":"file:///w/f.graphql"}}}
<- {"jsonrpc":"2.0","method":"textDocument/publishDiagnostics","params":{"diagnostics":[],"uri":"file:///w/f.graphql"}}
<- {"jsonrpc":"2.0","method":"textDocument/publishDiagnostics","params":{"diagnostics":[],"uri":"file:///w/q.graphql","version":1}}
load file:///w/f.graphql gone
<- {"jsonrpc":"2.0","method":"textDocument/publishDiagnostics","params":{"diagnostics":[{"code":"V14","message":"unknown fragment","range":{"end":{"character":5,"line":0},"start":{"character":4,"line":0}},"severity":1,"source":"gqls"}],"uri":"file:///w/q.graphql","version":1}}

# Nothing is loaded after a shutdown.
workers 2
-> {"id":0,"jsonrpc":"2.0","method":"initialize","params":{"capabilities":{"workspace":{"workspaceEdit":{"documentChanges":true}}},"processId":null,"rootUri":null}}
<- {"id":0,"jsonrpc":"2.0","result":{"capabilities":{"renameProvider":true,"textDocumentSync":{"change":2,"openClose":true}},"serverInfo":{"name":"gqls"}}}
-> {"id":1,"jsonrpc":"2.0","method":"shutdown"}
<- {"id":1,"jsonrpc":"2.0","result":null}
load file:///w/f.graphql text fragment A on Query{x}
-> {"jsonrpc":"2.0","method":"exit"}
stop 0
"#;
