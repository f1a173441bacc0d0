//! Documents of the tests.

/// A document as programs write it, with elements and attributes that are skipped.
pub(crate) const FULL: &str = "<?xml version=\"1.0\" encoding=\"UTF-8\"?>\n\
<LandXML xmlns=\"http://www.landxml.org/schema/LandXML-1.2\" xmlns:xsi=\"http://www.w3.org/2001/XMLSchema-instance\" date=\"2024-03-05\" time=\"09:30:00\" version=\"1.2\" language=\"English\" readOnly=\"false\">\n\
<Units><Metric areaUnit=\"squareMeter\" linearUnit=\"meter\" volumeUnit=\"cubicMeter\" temperatureUnit=\"celsius\" pressureUnit=\"milliBars\"/></Units>\n\
<Project name=\"Bypass\"/>\n\
<Application name=\"Survey &amp; Design\"><Author company=\"A\"/></Application>\n\
<CgPoints><CgPoint name=\"1\">4512345.5 512340.25 101.0</CgPoint></CgPoints>\n\
<Surfaces>\n\
<Surface name=\"EG\" desc=\"existing ground\">\n\
<SourceData>\n\
<Breaklines><Breakline brkType=\"standard\" desc=\"kerb\"><PntList3D>4512300.000000000000 512300.000000000000 100.000000000000 4512310.000000000000 512310.000000000000 102.000499999999</PntList3D></Breakline></Breaklines>\n\
</SourceData>\n\
<Definition surfType=\"TIN\" area2DSurf=\"100.0\" elevMax=\"104.0\" elevMin=\"100.0\">\n\
<Pnts>\n\
<P id=\"1\">4512300.000000000000 512300.000000000000 100.000000000000</P>\n\
<P id=\"2\">4512300.000000000000 512310.000000000000 101.000500000000</P>\n\
<P id=\"3\">4512310.000000000000 512310.000000000000 102.000499999999</P>\n\
<P id=\"4\">4512310.0 512300.0 1.04E+02</P>\n\
</Pnts>\n\
<Faces><F>1 2 3</F><F i=\"1\">1 3 4</F></Faces>\n\
</Definition>\n\
</Surface>\n\
</Surfaces>\n\
</LandXML>\n\
";

/// A document as it is written.
pub(crate) const TRIANGLE: &str = "<?xml version=\"1.0\" encoding=\"UTF-8\"?>\n\
<LandXML xmlns=\"http://www.landxml.org/schema/LandXML-1.2\" version=\"1.2\" date=\"2000-01-01\" time=\"00:00:00\">\n\
<Units><Metric linearUnit=\"meter\"/></Units>\n\
<Surfaces>\n\
<Surface name=\"ground\">\n\
<SourceData>\n\
<Boundaries>\n\
</Boundaries>\n\
<Breaklines>\n\
</Breaklines>\n\
<DataPoints><PntList3D>\n\
0.000 0.000 1.000\n\
10.000 0.000 -1.000\n\
0.000 10.000 -1.000\n\
</PntList3D></DataPoints>\n\
</SourceData>\n\
<Definition surfType=\"TIN\">\n\
<Pnts>\n\
<P id=\"1\">0.000 0.000 1.000</P>\n\
<P id=\"2\">10.000 0.000 -1.000</P>\n\
<P id=\"3\">0.000 10.000 -1.000</P>\n\
</Pnts>\n\
<Faces>\n\
<F>1 3 2</F>\n\
</Faces>\n\
</Definition>\n\
</Surface>\n\
</Surfaces>\n\
</LandXML>\n\
";

/// A document with each kind of line, in triples and in pairs, a line in two lists, and a short line.
pub(crate) const LINES: &str =
    "<LandXML><Units><Imperial linearUnit=\"foot\"/></Units><Surfaces><Surface name=\"a&amp;b\"><SourceData>\n\
<Boundaries><Boundary bndType=\"outer\"><PntList3D>0 0 1 0 100 1 100 100 1 100 0 1 0 0 1</PntList3D></Boundary>\n\
<Boundary bndType=\"void\"><PntList2D>20 20 20 80</PntList2D><PntList2D>80 80 80 20</PntList2D></Boundary>\n\
<Boundary bndType=\"island\"><PntList2D>40 40 40 60 60 60 60 40 40 40</PntList2D></Boundary></Boundaries>\n\
<Breaklines><Breakline><PntList3D>0 0 1 20 20 1</PntList3D></Breakline>\n\
<Breakline brkType=\"standard\"><PntList3D>0 0 2 0 0 2</PntList3D></Breakline></Breaklines>\n\
<DataPoints><PntList3D>0 0 1 0 100 1 100 0 1 100 100 1 20 20 1 20 80 1 80 20 1 80 80 1 40 40 1 40 60 1 60 40 1 60 60 1</PntList3D></DataPoints>\n\
</SourceData></Surface></Surfaces></LandXML>";

/// A document of points and faces alone, of which one is no facet.
pub(crate) const FACES: &str = "<LandXML><Surfaces><Surface name=\"t\"><Definition><Pnts>\n\
<P id=\"1\">0 0 0</P><P id=\"2\">0 10 0</P><P id=\"3\">10 0 0</P><P id=\"4\">10 10 0</P></Pnts>\n\
<Faces><F>2 4 1</F><F>2 3 4</F></Faces></Definition></Surface></Surfaces></LandXML>";

/// A document of one surface, whose breaklines cross.
pub(crate) const CROSSED: &str =
    "<LandXML><Surfaces><Surface name=\"a\"><SourceData><Breaklines><Breakline><PntList3D>0 0 0 10 10 0</PntList3D></Breakline>\n\
<Breakline><PntList3D>0 10 0 10 0 0</PntList3D></Breakline></Breaklines></SourceData></Surface></Surfaces></LandXML>";

/// A document of two surfaces, of which the second has breaklines that cross.
pub(crate) const TWO: &str =
    "<LandXML><Surfaces><Surface name=\"x\"><SourceData><DataPoints><PntList3D>0 0 0 0 10 0 10 0 0</PntList3D></DataPoints></SourceData></Surface>\n\
<Surface name=\"a\"><SourceData><Breaklines><Breakline><PntList3D>0 0 0 10 10 0</PntList3D></Breakline>\n\
<Breakline><PntList3D>0 10 0 10 0 0</PntList3D></Breakline></Breaklines></SourceData></Surface></Surfaces></LandXML>";

/// A document with two surfaces of one name, one with blanks and one that is no ASCII.
pub(crate) const NAMES: &str =
    "<LandXML><Surfaces><Surface name=\"a b\"><SourceData><DataPoints><PntList3D>0 0 1</PntList3D></DataPoints></SourceData></Surface>\n\
<Surface name=\"a\"><SourceData><DataPoints><PntList3D>0 0 2</PntList3D></DataPoints></SourceData></Surface>\n\
<Surface name=\"a\"><SourceData><DataPoints><PntList3D>0 0 3</PntList3D></DataPoints></SourceData></Surface>\n\
<Surface name=\"Gelände\"><SourceData><DataPoints><PntList3D>0 0 4</PntList3D></DataPoints></SourceData></Surface>\n\
</Surfaces></LandXML>";

/// A document of a `Definition` alone: the hull of its four points has a notch that no face of it fills.
pub(crate) const NOTCHED: &str =
    "<LandXML><Surfaces><Surface name=\"h\"><Definition surfType=\"TIN\"><Pnts>\n\
<P id=\"1\">0 0 0</P><P id=\"2\">0 10 0</P><P id=\"3\">10 0 0</P><P id=\"4\">3 3 0</P></Pnts>\n\
<Faces><F>1 2 4</F><F>1 4 3</F></Faces></Definition></Surface></Surfaces></LandXML>";

/// A document of no points, whose name has each character that is escaped.
pub(crate) const BARE: &str =
    "<LandXML><Surfaces><Surface name=\"&amp;&lt;&gt;&quot;&apos;\"/></Surfaces></LandXML>";

/// A document of points on one line, which have no facet.
pub(crate) const COLLINEAR: &str =
    "<LandXML><Surfaces><Surface name=\"c\"><SourceData><DataPoints><PntList3D>0 0 1 1 1 2 2 2 3 5 5 4</PntList3D></DataPoints></SourceData></Surface></Surfaces></LandXML>";

/// A document with coordinates and levels below 0, some between two thousandths.
pub(crate) const BELOW: &str =
    "<LandXML><Surfaces><Surface name=\"b\"><SourceData><DataPoints><PntList3D>-1.0005 -2.5 -3 -10 4 -0.0005 7 -7 0.0004 3 3 -3</PntList3D></DataPoints></SourceData></Surface></Surfaces></LandXML>";

/// A document whose coordinates have twelve digits.
pub(crate) const FAR: &str =
    "<LandXML><Surfaces><Surface name=\"f\"><SourceData><DataPoints><PntList3D>999999990.125 -999999980.25 1 999999991.125 -999999980.25 2 999999990.125 -999999979 3</PntList3D></DataPoints></SourceData></Surface></Surfaces></LandXML>";
