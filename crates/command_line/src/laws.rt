//! Laws about the definitions, stated as contracts of functions that do nothing.
ghost use Rattle.std.specs.Prelude.{◌≡◌, [], ◌∷◌, List, None, IsSomeAnd, codes, false, map, true};
ghost use Rattle.std.specs.Net.Grammar.{IsIpText};
ghost use Rattle.std.specs.Net.Socket.{IsPlainSocket, socket_ip, socket_port};
ghost use Rattle.clap.specs.Simple.{subcommand_of};
ghost use Rattle.clap.specs.Walk.{Text};
ghost use Rattle.command_line.specs.Address.{IsLoopback, is_public};
ghost use Rattle.command_line.specs.Arguments.{program};
ghost use Rattle.command_line.specs.Request.{HasNoRequest, IsRequestOf, IsServeOf};
ghost use Rattle.command_line.specs.declared.serve.Serve.{Serve};
ghost use Rattle.commands.specs.declared.compile.Compile.{Compile};
ghost use Rattle.filters.specs.declared.filter.FilterLanguage.TheVariants as language;
ghost use Rattle.commands.specs.declared.geocode_batch.GeocodeBatch.{GeocodeBatch};
ghost use Rattle.commands.specs.declared.request.Request.TheVariants as request;
ghost use Rattle.commands.specs.declared.run.Run.{Run};
ghost use Rattle.cql2.specs.declared.column.Column.TheVariants as column;
ghost use Rattle.cql2.specs.declared.column.NumberColumn.TheVariants.{Tlid};
ghost use Rattle.cql2.specs.declared.column.NumericColumn.TheVariants.{Number};
ghost use Rattle.cql2.specs.declared.column.TextColumn.TheVariants.{Cfcc};
ghost use Rattle.layers.specs.declared.geometry.Geometry.TheVariants as geometry;
ghost use Rattle.layers.specs.Layer.{Features, Rows, Table};
ghost use Rattle.layers.specs.LayerParts.{parts_of as layer_parts};

/// Shows what some words request.
pub fn requests()
    ensures run { (run : Run) → run.program.now ≡ codes "street.bpf" → run.«data».now ≡ codes "tiger" → run.code.now ≡ codes "01001"
        → layer_parts run.layer ≡ Rows
        → IsRequestOf (codes "run" ∷ codes "--data" ∷ codes "tiger" ∷ codes "--program=street.bpf" ∷ codes "01001" ∷ []) (request.Run run) }
    ensures table { (run : Run) → run.program.now ≡ codes "p" → run.«data».now ≡ codes "d" → run.code.now ≡ codes "01001"
        → layer_parts run.layer ≡ Table (record { columns = column.Text Cfcc ∷ column.Numeric (Number Tlid) ∷ []; geometry = geometry.Line })
        → IsRequestOf (codes "run" ∷ codes "--program=p" ∷ codes "--data=d" ∷ codes "--format" ∷ codes "csv" ∷ codes "--columns" ∷ codes "cfcc,TLID"
        ∷ codes "01001" ∷ []) (request.Run run) }
    ensures features { (run : Run) → run.program.now ≡ codes "p" → run.«data».now ≡ codes "d" → run.code.now ≡ codes "01001"
        → layer_parts run.layer ≡ Features (record { columns = column.Text Cfcc ∷ []; geometry = geometry.Shape })
        → IsRequestOf (codes "run" ∷ codes "--program=p" ∷ codes "--data=d" ∷ codes "--geometry=shape" ∷ codes "--columns=CFCC"
        ∷ codes "--format=geojsonseq" ∷ codes "01001" ∷ []) (request.Run run) }
    ensures unformatted { HasNoRequest (codes "run" ∷ codes "--program=p" ∷ codes "--data=d" ∷ codes "--columns=CFCC" ∷ codes "01001" ∷ []) }
    ensures json { (compile : Compile) → compile.filter.now ≡ codes "f.json" → compile.filter_options.language ≡ language.Json
        → compile.filter_options.score ≡ None
        → IsRequestOf (codes "compile" ∷ codes "--filter=f.json" ∷ codes "--filter-lang=cql2-json" ∷ []) (request.Compile compile) }
    ensures shape { (batch : GeocodeBatch) → batch.addresses.now ≡ codes "a.csv" → batch.«data».now ≡ codes "tiger" → batch.shape ≡ true
        → map (λ code. code.now) batch.codes.items ≡ codes "01001" ∷ []
        → IsRequestOf (codes "geocode-batch" ∷ codes "--shape" ∷ codes "--addresses=a.csv" ∷ codes "--data=tiger" ∷ codes "01001" ∷ [])
        (request.GeocodeBatch batch) }
    ensures no_shape { (batch : GeocodeBatch) → batch.addresses.now ≡ codes "a.csv" → batch.«data».now ≡ codes "tiger" → batch.shape ≡ false
        → map (λ code. code.now) batch.codes.items ≡ codes "01001" ∷ []
        → IsRequestOf (codes "geocode-batch" ∷ codes "--addresses=a.csv" ∷ codes "--data=tiger" ∷ codes "01001" ∷ [])
        (request.GeocodeBatch batch) }
    ensures twice { HasNoRequest (codes "dis" ∷ codes "--program" ∷ codes "a.bpf" ∷ codes "--program" ∷ codes "b.bpf" ∷ []) }
    ensures missing { HasNoRequest (codes "run" ∷ codes "--program" ∷ codes "street.bpf" ∷ codes "01001" ∷ []) }
    ensures help { HasNoRequest (codes "--help" ∷ []) }
{}

/// Shows where a server listens: without `--public` for this machine alone, whatever the words.
pub fn listens()
    ensures loopback { (words : List Text) (serve : Serve) → IsServeOf words serve
        → IsSomeAnd (subcommand_of program words) (λ given. is_public given.1 ≡ false → IsLoopback (socket_ip serve.address)) }
    ensures default { (serve : Serve) → IsServeOf (codes "serve" ∷ codes "--data=d" ∷ codes "--port=8080" ∷ codes "01001" ∷ []) serve
        → IsIpText (codes "127.0.0.1") (socket_ip serve.address) × (socket_port serve.address ≡ 8080) × (serve.log ≡ false) }
    ensures any_port { (serve : Serve) → IsServeOf (codes "serve" ∷ codes "--data=d" ∷ codes "--any-port" ∷ codes "--host=::1" ∷ codes "01001" ∷ []) serve
        → IsIpText (codes "::1") (socket_ip serve.address) × (socket_port serve.address ≡ 0) }
    ensures log { (serve : Serve) → IsServeOf (codes "serve" ∷ codes "--data=d" ∷ codes "--port=80" ∷ codes "--log" ∷ codes "01001" ∷ []) serve
        → serve.log ≡ true }
    ensures two_ports { (serve : Serve) → IsServeOf (codes "serve" ∷ codes "--data=d" ∷ codes "--port=80" ∷ codes "--any-port" ∷ codes "01001" ∷ []) serve → ⊥ }
    ensures private { (serve : Serve)
        → IsServeOf (codes "serve" ∷ codes "--data=d" ∷ codes "--port=80" ∷ codes "--host=0.0.0.0" ∷ codes "01001" ∷ []) serve → ⊥ }
    ensures public { (serve : Serve) → serve.«data».now ≡ codes "d" → IsIpText (codes "0.0.0.0") (socket_ip serve.address)
        → IsPlainSocket serve.address 80 → serve.log ≡ false → map (λ code. code.now) serve.codes.items ≡ codes "01001" ∷ []
        → IsServeOf (codes "serve" ∷ codes "--data=d" ∷ codes "--port=80" ∷ codes "--host=0.0.0.0" ∷ codes "--public" ∷ codes "01001" ∷ []) serve }
{}
